//! The early rules that a script breaks.

ghost use Rattle.std.specs.Prelude.{◌≡◌, IfOk};
ghost use Rattle.js_core.specs.Tree.{stmts_of};
ghost use Rattle.early_rules.specs.declared.early_rule.EarlyRule.TheVariants as rule;
ghost use Rattle.early_rules.specs.EarlyRules as spec;

use crate::scope_test::ScopeTest;
use crate::uses::note_statements;
use early_rules::{EarlyRule, Jump, NodeTest, any_in_statements, leaves, strays};
use global_names::is_global_name;
use js_core::{OutOfMemory, Script, Stmt, StmtNode, Units};
use scope_analysis::UseTable;
use std::alloc::Global;

const EARLY_RULES: [EarlyRule; 9] = [
    EarlyRule::RepeatedFormal,
    EarlyRule::RepeatedField,
    EarlyRule::DeletedName,
    EarlyRule::RestrictedName,
    EarlyRule::StrayReturn,
    EarlyRule::StrayJump,
    EarlyRule::BadTarget,
    EarlyRule::AssignedOwnName,
    EarlyRule::RedeclaredGlobal,
];

/// The early rule with the lowest number that the script breaks anywhere, or `None` where it breaks none.
#[tactic(auto, unfolding(early_rules::specs::EarlyRules::early_rules))]
pub fn early(alloc: Global, script: &Script) -> Result<Option<EarlyRule>, OutOfMemory>
    ensures { IfOk result (λ rule. rule ≡ spec.early_rule script.now) }
{
    first_broken(alloc, &EARLY_RULES, script.body.as_slice())
}

fn first_broken(
    alloc: Global,
    rules: &[EarlyRule],
    statements: &[Stmt],
) -> Result<Option<EarlyRule>, OutOfMemory>
    ensures { IfOk result (λ rule. rule ≡ spec.first_broken rules.now (stmts_of statements.now)) }
{
    let mut rest = rules;
    while let [rule, after @ ..] = rest {
        if breaks(alloc, *rule, statements)? {
            return Ok(Some(*rule));
        }
        rest = after;
    }
    Ok(None)
}

fn breaks(alloc: Global, rule: EarlyRule, statements: &[Stmt]) -> Result<bool, OutOfMemory>
    ensures { IfOk result (λ broken. broken ≡ spec.breaks rule (stmts_of statements.now)) }
{
    match rule {
        EarlyRule::RepeatedFormal => any_in_statements(alloc, NodeTest::RepeatsFormal, statements),
        EarlyRule::RepeatedField => any_in_statements(alloc, NodeTest::RepeatsField, statements),
        EarlyRule::DeletedName => any_in_statements(alloc, NodeTest::DeletesName, statements),
        EarlyRule::RestrictedName => any_in_statements(
            alloc,
            NodeTest::HasRestrictedName,
            statements,
        ),
        EarlyRule::StrayReturn => Ok(leaves(Jump::Return, statements)),
        EarlyRule::StrayJump => {
            Ok(strays(statements) || any_in_statements(alloc, NodeTest::HasStrayJump, statements)?)
        }
        EarlyRule::BadTarget => any_in_statements(alloc, NodeTest::HasBadTarget, statements),
        EarlyRule::AssignedOwnName => assigns_own_name(alloc, statements),
        EarlyRule::RedeclaredGlobal => Ok(redeclares_global(statements)),
    }
}

fn assigns_own_name(alloc: Global, statements: &[Stmt]) -> Result<bool, OutOfMemory>
    ensures { IfOk result (λ broken. broken ≡ spec.breaks rule.AssignedOwnName
        (stmts_of statements.now)) }
{
    let mut uses = UseTable::new(alloc);
    note_statements(ScopeTest::AssignsOwnName, statements, &mut uses)
}

fn redeclares_global(statements: &[Stmt]) -> bool
    ensures { result ≡ spec.redeclares_global (stmts_of statements.now) }
{
    let mut rest = statements;
    while let [statement, after @ ..] = rest {
        if declares_global(statement) {
            return true;
        }
        rest = after;
    }
    false
}

fn declares_global(statement: &Stmt) -> bool
    ensures { result ≡ spec.declares_global statement.now }
{
    match &statement.node {
        StmtNode::Function(code) => is_global(&code.name),
        _ => false,
    }
}

fn is_global(name: &Option<Units>) -> bool
    ensures { result ≡ spec.is_global name.now }
{
    match name {
        None => false,
        Some(name) => is_global_name(name),
    }
}
