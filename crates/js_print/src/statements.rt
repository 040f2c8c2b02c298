//! The lexemes of statements (ECMA-262 5.1 section 12).

ghost use Rattle.std.specs.Prelude.{◌≡◌, [], ◌∷◌, ◌++◌, OnOk, option_map};
ghost use Rattle.js_core.specs.Tree.{maybe_expr, stmts_of, maybe_stmts};
ghost use Rattle.js_core.specs.Tree as tree;
ghost use Rattle.js_core.specs.Views.{declarators_of, init_of, catch_of, cases_of};
ghost use Rattle.js_print.specs.Lexemes as spec;
ghost use Rattle.js_print.specs.Places.{placed, parenthesised, braced};
ghost use Rattle.js_core.specs.declared.token.Punct.TheVariants as punct;
ghost use Rattle.js_core.specs.declared.keyword.Keyword.TheVariants as keyword;
ghost use Rattle.js_print.specs.declared.lexeme.Lexeme.TheVariants as lexeme;
ghost use Rattle.js_print.specs.declared.place.Place.TheVariants.{Operand, Whole};

use crate::expressions::{push_code, push_placed};
use crate::lexeme::Lexeme;
use crate::place::Place;
use crate::pushing::{push_keyword, push_maybe_var, push_name, push_punct};
use js_core::{
    Case, Catch, Declarator, Expr, ForInit, Keyword, OutOfMemory, Punct, Stmt, StmtNode,
};

/// Appends the lexemes of statements.
#[cycle(printing)]
pub fn push_statements(statements: &[Stmt], out: &mut Vec<Lexeme>) -> Result<(), OutOfMemory>
    ensures { OnOk result (out.new.items ≡ out.old.items
        ++ spec.stmts_lexemes (stmts_of statements.now)) }
{
    let mut rest = statements;
    while let [statement, after @ ..] = rest {
        push_statement(statement, out)?;
        rest = after;
    }
    Ok(())
}

/// Appends the lexemes of statements in braces.
#[cycle(printing)]
pub fn push_body(statements: &[Stmt], out: &mut Vec<Lexeme>) -> Result<(), OutOfMemory>
    ensures { OnOk result (out.new.items ≡ out.old.items
        ++ braced (spec.stmts_lexemes (stmts_of statements.now))) }
{
    push_punct(Punct::LeftBrace, out)?;
    push_statements(statements, out)?;
    push_punct(Punct::RightBrace, out)
}

#[cycle(printing)]
fn push_statement(statement: &Stmt, out: &mut Vec<Lexeme>) -> Result<(), OutOfMemory>
    ensures { OnOk result (out.new.items ≡ out.old.items ++ spec.stmt_lexemes statement.now) }
{
    match &statement.node {
        StmtNode::Var(declarators) => push_variables(declarators.as_slice(), out),
        StmtNode::Function(code) => push_code(code, out),
        StmtNode::Expr(expression) => {
            push_placed(Place::Statement, expression, out)?;
            push_punct(Punct::Semicolon, out)
        }
        StmtNode::Empty => push_punct(Punct::Semicolon, out),
        StmtNode::Block(statements) => push_body(statements.as_slice(), out),
        StmtNode::If(parts) => push_if(&parts.test, parts.first.as_slice(), &parts.second, out),
        StmtNode::Do(body, test) => push_do(body.as_slice(), test, out),
        StmtNode::While(test, body) => push_while(test, body.as_slice(), out),
        StmtNode::For(parts) => push_for(
            &parts.init,
            &parts.test,
            &parts.step,
            parts.body.as_slice(),
            out,
        ),
        StmtNode::ForIn {
            declared,
            target,
            object,
            body,
        } => push_for_in(*declared, target, object, body.as_slice(), out),
        StmtNode::Continue => push_jump(Keyword::Continue, out),
        StmtNode::Break => push_jump(Keyword::Break, out),
        StmtNode::Return(value) => push_return(value, out),
        StmtNode::Throw(value) => push_throw(value, out),
        StmtNode::Try(parts) => push_try(parts.block.as_slice(), &parts.catch, &parts.last, out),
        StmtNode::Switch(value, cases) => push_switch(value, cases.as_slice(), out),
    }
}

// `break` or `continue`.
fn push_jump(keyword: Keyword, out: &mut Vec<Lexeme>) -> Result<(), OutOfMemory>
    ensures { OnOk result (out.new.items ≡ out.old.items ++ lexeme.Keyword keyword
        ∷ lexeme.Punct punct.Semicolon ∷ []) }
{
    push_keyword(keyword, out)?;
    push_punct(Punct::Semicolon, out)
}

#[cycle(printing)]
fn push_variables(declarators: &[Declarator], out: &mut Vec<Lexeme>) -> Result<(), OutOfMemory>
    ensures { OnOk result (out.new.items ≡ out.old.items
        ++ spec.stmt_lexemes (tree.var (declarators_of declarators.now))) }
{
    push_keyword(Keyword::Var, out)?;
    push_declarators(declarators, out)?;
    push_punct(Punct::Semicolon, out)
}

#[cycle(printing)]
fn push_declarators(declarators: &[Declarator], out: &mut Vec<Lexeme>) -> Result<(), OutOfMemory>
    ensures { OnOk result (out.new.items ≡ out.old.items
        ++ spec.declarators_lexemes (declarators_of declarators.now)) }
{
    let [declarator, more @ ..] = declarators else {
        return Ok(());
    };
    push_name(&declarator.name, out)?;
    push_initialiser(&declarator.value, out)?;
    push_more_declarators(more, out)
}

// Declarators, each after a comma.
#[cycle(printing)]
fn push_more_declarators(
    declarators: &[Declarator],
    out: &mut Vec<Lexeme>,
) -> Result<(), OutOfMemory>
    ensures { OnOk result (out.new.items ≡ out.old.items
        ++ spec.more_declarators_lexemes (declarators_of declarators.now)) }
{
    let mut rest = declarators;
    while let [declarator, after @ ..] = rest {
        push_punct(Punct::Comma, out)?;
        push_name(&declarator.name, out)?;
        push_initialiser(&declarator.value, out)?;
        rest = after;
    }
    Ok(())
}

#[cycle(printing)]
fn push_initialiser(value: &Option<Expr>, out: &mut Vec<Lexeme>) -> Result<(), OutOfMemory>
    ensures { OnOk result (out.new.items ≡ out.old.items
        ++ spec.initialiser_lexemes (maybe_expr value.now)) }
{
    let Some(value) = value else {
        return Ok(());
    };
    push_punct(Punct::SimpleAssign, out)?;
    push_placed(Place::Part, value, out)
}

// An expression in parentheses, as the headers of statements have it.
#[cycle(printing)]
fn push_header(expression: &Expr, out: &mut Vec<Lexeme>) -> Result<(), OutOfMemory>
    ensures { OnOk result (out.new.items ≡ out.old.items
        ++ parenthesised (placed Whole expression.now (spec.expr_lexemes expression.now))) }
{
    push_punct(Punct::LeftParenthesis, out)?;
    push_placed(Place::Whole, expression, out)?;
    push_punct(Punct::RightParenthesis, out)
}

#[cycle(printing)]
fn push_maybe_whole(expression: &Option<Expr>, out: &mut Vec<Lexeme>) -> Result<(), OutOfMemory>
    ensures { OnOk result (out.new.items ≡ out.old.items
        ++ spec.maybe_whole_lexemes (maybe_expr expression.now)) }
{
    match expression {
        None => Ok(()),
        Some(expression) => push_placed(Place::Whole, expression, out),
    }
}

#[cycle(printing)]
fn push_if(
    test: &Expr,
    first: &[Stmt],
    second: &Option<Vec<Stmt>>,
    out: &mut Vec<Lexeme>,
) -> Result<(), OutOfMemory>
    ensures { OnOk result (out.new.items ≡ out.old.items
        ++ spec.stmt_lexemes (tree.if_else test.now (stmts_of first.now)
        (maybe_stmts (option_map (λ v. v.items) second.now)))) }
{
    push_keyword(Keyword::If, out)?;
    push_header(test, out)?;
    push_body(first, out)?;
    push_maybe_body(Keyword::Else, second, out)
}

#[cycle(printing)]
fn push_maybe_body(
    keyword: Keyword,
    body: &Option<Vec<Stmt>>,
    out: &mut Vec<Lexeme>,
) -> Result<(), OutOfMemory>
    ensures { OnOk result (out.new.items ≡ out.old.items
        ++ spec.maybe_body_lexemes keyword (maybe_stmts (option_map (λ v. v.items) body.now))) }
{
    let Some(body) = body else {
        return Ok(());
    };
    push_keyword(keyword, out)?;
    push_body(body.as_slice(), out)
}

#[cycle(printing)]
fn push_do(body: &[Stmt], test: &Expr, out: &mut Vec<Lexeme>) -> Result<(), OutOfMemory>
    ensures { OnOk result (out.new.items ≡ out.old.items
        ++ spec.stmt_lexemes (tree.do_while (stmts_of body.now) test.now)) }
{
    push_keyword(Keyword::Do, out)?;
    push_body(body, out)?;
    push_keyword(Keyword::While, out)?;
    push_header(test, out)?;
    push_punct(Punct::Semicolon, out)
}

#[cycle(printing)]
fn push_while(test: &Expr, body: &[Stmt], out: &mut Vec<Lexeme>) -> Result<(), OutOfMemory>
    ensures { OnOk result (out.new.items ≡ out.old.items
        ++ spec.stmt_lexemes (tree.while test.now (stmts_of body.now))) }
{
    push_keyword(Keyword::While, out)?;
    push_header(test, out)?;
    push_body(body, out)
}

#[cycle(printing)]
fn push_return(value: &Option<Expr>, out: &mut Vec<Lexeme>) -> Result<(), OutOfMemory>
    ensures { OnOk result (out.new.items ≡ out.old.items
        ++ spec.stmt_lexemes (tree.return (maybe_expr value.now))) }
{
    push_keyword(Keyword::Return, out)?;
    push_maybe_whole(value, out)?;
    push_punct(Punct::Semicolon, out)
}

#[cycle(printing)]
fn push_throw(value: &Expr, out: &mut Vec<Lexeme>) -> Result<(), OutOfMemory>
    ensures { OnOk result (out.new.items ≡ out.old.items
        ++ spec.stmt_lexemes (tree.throw value.now)) }
{
    push_keyword(Keyword::Throw, out)?;
    push_placed(Place::Whole, value, out)?;
    push_punct(Punct::Semicolon, out)
}

#[cycle(printing)]
fn push_for(
    init: &ForInit,
    test: &Option<Expr>,
    step: &Option<Expr>,
    body: &[Stmt],
    out: &mut Vec<Lexeme>,
) -> Result<(), OutOfMemory>
    ensures { OnOk result (out.new.items ≡ out.old.items
        ++ spec.stmt_lexemes (tree.for (init_of init.now) (maybe_expr test.now)
        (maybe_expr step.now) (stmts_of body.now))) }
{
    push_keyword(Keyword::For, out)?;
    push_punct(Punct::LeftParenthesis, out)?;
    push_for_header(init, test, step, out)?;
    push_punct(Punct::RightParenthesis, out)?;
    push_body(body, out)
}

#[cycle(printing)]
fn push_for_header(
    init: &ForInit,
    test: &Option<Expr>,
    step: &Option<Expr>,
    out: &mut Vec<Lexeme>,
) -> Result<(), OutOfMemory>
    ensures { OnOk result (out.new.items ≡ out.old.items
        ++ (spec.init_lexemes (init_of init.now) ++ lexeme.Punct punct.Semicolon
        ∷ (spec.maybe_whole_lexemes (maybe_expr test.now) ++ lexeme.Punct punct.Semicolon
        ∷ spec.maybe_whole_lexemes (maybe_expr step.now)))) }
{
    push_init(init, out)?;
    push_punct(Punct::Semicolon, out)?;
    push_maybe_whole(test, out)?;
    push_punct(Punct::Semicolon, out)?;
    push_maybe_whole(step, out)
}

#[cycle(printing)]
fn push_init(init: &ForInit, out: &mut Vec<Lexeme>) -> Result<(), OutOfMemory>
    ensures { OnOk result (out.new.items ≡ out.old.items ++ spec.init_lexemes (init_of init.now)) }
{
    match init {
        ForInit::Nothing => Ok(()),
        ForInit::Var(declarators) => {
            push_keyword(Keyword::Var, out)?;
            push_declarators(declarators.as_slice(), out)
        }
        ForInit::Expr(expression) => push_placed(Place::Whole, expression, out),
    }
}

#[cycle(printing)]
fn push_for_in(
    declared: bool,
    target: &Expr,
    object: &Expr,
    body: &[Stmt],
    out: &mut Vec<Lexeme>,
) -> Result<(), OutOfMemory>
    ensures { OnOk result (out.new.items ≡ out.old.items
        ++ spec.stmt_lexemes (tree.for_in declared target.now object.now (stmts_of body.now))) }
{
    push_keyword(Keyword::For, out)?;
    push_punct(Punct::LeftParenthesis, out)?;
    push_for_in_header(declared, target, object, out)?;
    push_punct(Punct::RightParenthesis, out)?;
    push_body(body, out)
}

#[cycle(printing)]
fn push_for_in_header(
    declared: bool,
    target: &Expr,
    object: &Expr,
    out: &mut Vec<Lexeme>,
) -> Result<(), OutOfMemory>
    ensures { OnOk result (out.new.items ≡ out.old.items
        ++ (spec.maybe_var declared ++ (placed Operand target.now (spec.expr_lexemes target.now)
        ++ lexeme.Keyword keyword.In ∷ placed Whole object.now (spec.expr_lexemes object.now)))) }
{
    push_maybe_var(declared, out)?;
    push_placed(Place::Operand, target, out)?;
    push_keyword(Keyword::In, out)?;
    push_placed(Place::Whole, object, out)
}

#[cycle(printing)]
fn push_try(
    block: &[Stmt],
    catch: &Option<Catch>,
    last: &Option<Vec<Stmt>>,
    out: &mut Vec<Lexeme>,
) -> Result<(), OutOfMemory>
    ensures { OnOk result (out.new.items ≡ out.old.items
        ++ spec.stmt_lexemes (tree.try (stmts_of block.now) (catch_of catch.now)
        (maybe_stmts (option_map (λ v. v.items) last.now)))) }
{
    push_keyword(Keyword::Try, out)?;
    push_body(block, out)?;
    push_maybe_catch(catch, out)?;
    push_maybe_body(Keyword::Finally, last, out)
}

#[cycle(printing)]
fn push_maybe_catch(catch: &Option<Catch>, out: &mut Vec<Lexeme>) -> Result<(), OutOfMemory>
    ensures { OnOk result (out.new.items ≡ out.old.items
        ++ spec.maybe_catch_lexemes (catch_of catch.now)) }
{
    let Some(catch) = catch else {
        return Ok(());
    };
    push_keyword(Keyword::Catch, out)?;
    push_punct(Punct::LeftParenthesis, out)?;
    push_name(&catch.name, out)?;
    push_punct(Punct::RightParenthesis, out)?;
    push_body(catch.body.as_slice(), out)
}

#[cycle(printing)]
fn push_switch(value: &Expr, cases: &[Case], out: &mut Vec<Lexeme>) -> Result<(), OutOfMemory>
    ensures { OnOk result (out.new.items ≡ out.old.items
        ++ spec.stmt_lexemes (tree.switch value.now (cases_of cases.now))) }
{
    push_keyword(Keyword::Switch, out)?;
    push_header(value, out)?;
    push_punct(Punct::LeftBrace, out)?;
    push_cases(cases, out)?;
    push_punct(Punct::RightBrace, out)
}

#[cycle(printing)]
fn push_cases(cases: &[Case], out: &mut Vec<Lexeme>) -> Result<(), OutOfMemory>
    ensures { OnOk result (out.new.items ≡ out.old.items
        ++ spec.cases_lexemes (cases_of cases.now)) }
{
    let mut rest = cases;
    while let [case, after @ ..] = rest {
        push_label(&case.test, out)?;
        push_statements(case.body.as_slice(), out)?;
        rest = after;
    }
    Ok(())
}

#[cycle(printing)]
fn push_label(test: &Option<Expr>, out: &mut Vec<Lexeme>) -> Result<(), OutOfMemory>
    ensures { OnOk result (out.new.items ≡ out.old.items
        ++ spec.case_label_lexemes (maybe_expr test.now)) }
{
    let Some(test) = test else {
        push_keyword(Keyword::Default, out)?;
        return push_punct(Punct::Colon, out);
    };
    push_keyword(Keyword::Case, out)?;
    push_placed(Place::Part, test, out)?;
    push_punct(Punct::Colon, out)
}
