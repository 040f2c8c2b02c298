//! The lexemes of the statements of timers.

ghost use Rattle.std.specs.Prelude.{◌≡◌, ◌++◌, OnOk};
ghost use Rattle.js_print.specs.Lexemes.{expr_lexemes};
ghost use Rattle.page_writer.specs.HostStatements as spec;

use crate::references::{push_number, push_part, push_word};
use js_core::{OutOfMemory, Punct};
use js_print::{Lexeme, push_punct};
use js_values::ObjId;
use std::alloc::Global;

/// Appends what starts a timer that only takes an id.
pub fn push_filler(alloc: Global, out: &mut Vec<Lexeme>) -> Result<(), OutOfMemory>
    ensures { OnOk result (out.new.items ≡ out.old.items ++ expr_lexemes spec.filler_expr) }
{
    push_word(alloc, b"setTimeout", out)?;
    push_punct(Punct::LeftParenthesis, out)?;
    push_word(alloc, b"Object", out)?;
    push_punct(Punct::Comma, out)?;
    push_number(0, out)?;
    push_punct(Punct::RightParenthesis, out)
}

/// Appends what clears a timer.
pub fn push_clear(alloc: Global, id: u32, out: &mut Vec<Lexeme>) -> Result<(), OutOfMemory>
    ensures { OnOk result (out.new.items ≡ out.old.items ++ expr_lexemes (spec.clear_expr id)) }
{
    push_word(alloc, b"clearTimeout", out)?;
    push_punct(Punct::LeftParenthesis, out)?;
    push_number(u64::from(id), out)?;
    push_punct(Punct::RightParenthesis, out)
}

/// Appends what starts a timeout.
pub fn push_timeout(
    alloc: Global,
    call: ObjId,
    rest: u64,
    out: &mut Vec<Lexeme>,
) -> Result<(), OutOfMemory>
    ensures { OnOk result (out.new.items ≡ out.old.items
        ++ expr_lexemes (spec.timeout_expr call rest)) }
{
    push_word(alloc, b"setTimeout", out)?;
    push_punct(Punct::LeftParenthesis, out)?;
    push_part(alloc, call, out)?;
    push_punct(Punct::Comma, out)?;
    push_number(rest, out)?;
    push_punct(Punct::RightParenthesis, out)
}

/// Appends what starts an interval.
pub fn push_interval(
    alloc: Global,
    call: ObjId,
    rest: u64,
    period: u64,
    out: &mut Vec<Lexeme>,
) -> Result<(), OutOfMemory>
    ensures { OnOk result (out.new.items ≡ out.old.items
        ++ expr_lexemes (spec.interval_expr call rest period)) }
{
    push_word(alloc, b"setIntervalFrom", out)?;
    push_punct(Punct::LeftParenthesis, out)?;
    push_part(alloc, call, out)?;
    push_punct(Punct::Comma, out)?;
    push_number(rest, out)?;
    push_punct(Punct::Comma, out)?;
    push_number(period, out)?;
    push_punct(Punct::RightParenthesis, out)
}
