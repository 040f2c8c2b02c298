//! The script of a page.

ghost use Rattle.std.specs.Prelude.{◌≡◌, IfOk, IfErr};
ghost use Rattle.page_check.specs.Accept as spec;
ghost use Rattle.page_check.specs.Accept.{IsPageScript, IsNotScript, IsStrictScript};
ghost use Rattle.js_grammar.specs.Syntax.{IsSyntax};
ghost use Rattle.page_check.specs.Rules.{KeepsRules};
ghost use Rattle.page_check.specs.declared.page.Kind.{Kind as PageKind};

use crate::page::{AcceptFault, Kind, Refusal};
use expression_parser::{NotScript, ParseFault};
use js_core::{FORM_HEIGHT_LIMIT, OutOfMemory, PLAIN_HEIGHT_LIMIT, Script, Units};
use js_grammar::law_derived_trees_are_syntax;
use js_lexer::{LexFault, NotTokens, strict, tokens};
use js_print::law_tokens_can_be_written;
use script_parser::script;
use script_rules::{early, has_high_function, has_reserved_name, in_form};
use std::alloc::Global;

/// The script with this text, which is that of this number in a page of this kind. The first cause that there is against
/// it is the answer.
pub fn page_script(
    alloc: Global,
    kind: Kind,
    number: u64,
    text: Units,
) -> Result<Script, AcceptFault>
    ensures ok { IfOk result (IsPageScript kind text) }
    ensures rules { IfOk result (KeepsRules kind) }
    ensures refused { IfErr result (IsNotScript kind number text) }
{
    let script = strict_script(alloc, number, text)?;
    if let Some(rule) = early(alloc, &script)? {
        return Err(AcceptFault::Cause(Refusal::Early(number, rule)));
    }
    if is_too_deep(alloc, kind, &script)? {
        return Err(AcceptFault::Cause(Refusal::TooDeep(number)));
    }
    if keeps_form(alloc, kind, &script)? {
        return Ok(script);
    }
    match kind {
        Kind::Plain => Err(AcceptFault::Cause(Refusal::ReservedName(number))),
        Kind::Form => Err(AcceptFault::Cause(Refusal::NotForm(number))),
    }
}

/// The strict script with this text, which goes as soon as its tokens are there.
fn strict_script(alloc: Global, number: u64, text: Units) -> Result<Script, AcceptFault>
    ensures ok { IfOk result (IsStrictScript text) }
    ensures syntax { IfOk result IsSyntax }
    ensures refused { (kind : PageKind) → IfErr result (IsNotScript kind number text) }
{
    law_tokens_can_be_written();
    law_derived_trees_are_syntax();
    let tokens = match tokens(alloc, &text) {
        Ok(tokens) => tokens,
        Err(LexFault::Cause(NotTokens)) => {
            return Err(AcceptFault::Cause(Refusal::NotTokens(number)));
        }
        Err(LexFault::OutOfMemory) => return Err(AcceptFault::OutOfMemory),
    };
    drop(text);
    let is_strict = strict(tokens.as_slice());
    let script = match script(alloc, tokens) {
        Ok(script) => script,
        Err(ParseFault::Cause(NotScript)) => {
            return Err(AcceptFault::Cause(Refusal::NotScript(number)));
        }
        Err(ParseFault::OutOfMemory) => return Err(AcceptFault::OutOfMemory),
    };
    if !is_strict {
        return Err(AcceptFault::Cause(Refusal::NotStrict(number)));
    }
    Ok(script)
}

fn is_too_deep(alloc: Global, kind: Kind, script: &Script) -> Result<bool, OutOfMemory>
    ensures { IfOk result (λ deep. deep ≡ spec.is_too_deep kind script.now) }
{
    match kind {
        Kind::Plain => Ok(script.height() > PLAIN_HEIGHT_LIMIT),
        Kind::Form => Ok(script.height() > FORM_HEIGHT_LIMIT || has_high_function(alloc, script)?),
    }
}

/// Whether no identifier of a plain page begins with `$$`, and the script of a form page is in form.
fn keeps_form(alloc: Global, kind: Kind, script: &Script) -> Result<bool, OutOfMemory>
    ensures { IfOk result (λ keeps. keeps ≡ spec.keeps_form kind script.now) }
{
    match kind {
        Kind::Plain => Ok(!has_reserved_name(alloc, script)?),
        Kind::Form => in_form(alloc, script),
    }
}
