//! The saving of a page.

ghost use Rattle.std.specs.Prelude.{◌≡◌, Err, OnOk};
ghost use Rattle.heap_walker.specs.Weight.{load_of, told};
ghost use Rattle.js_core.specs.declared.memory.Failure.TheVariants as fault;
ghost use Rattle.page_io.specs.Faults.{CountsFaults};
ghost use Rattle.rebuild_plan.specs.Compact.{compact};
ghost use Rattle.rebuild_plan.specs.Plan.{plan};
ghost use Rattle.page_writer.specs.Literals.{CanBeWritten, HaveLiterals};
ghost use Rattle.page_writer.specs.Page.{line, lines, page_of, saved_page};
ghost use Rattle.page_writer.specs.Putting.{Puts};
ghost use Rattle.page_writer.specs.Sizes.{IsSaved, Judged};

use crate::literals::tell_plan;
use crate::save_fault::{NotSaved, SaveFault};
use crate::statements::push_statement;
use heap_walker::{Walked, walk, weight_of};
use js_core::{OutOfMemory, SAVED_TEXT_LIMIT, SAVED_THINGS_LIMIT};
use js_print::{Lexeme, push_lexemes};
use page_io::{PutFault, Sink};
use page_state::State;
use rebuild_plan::{Rebuild, plan};
use std::alloc::Global;

// The mark of form pages, and the start of the script: `$$` is a list there that no name of a page reaches, and the nodes that the page is
// read with are taken out.
const HEAD: &[u8] =
    b"<!--imagen 1--><html><script>\"use strict\";try{throw[];}catch($$){\ndocument.removeChild(document.documentElement);\n";

const TAIL: &[u8] = b"}</script></html>";

/// Puts the saved page of a page, piece by piece: its head, a line for each statement, and its tail. The page is
/// weighed first, and of one that is too large nothing is put. The work is in proportion to what can be reached; of the
/// text no more than a line is held.
pub fn write_state<O: Sink>(state: &State, out: &mut O) -> Result<(), SaveFault>
    ensures saved { IsSaved state.now (O.seen out.old) (O.seen out.new) result }
    ensures written { OnOk result (CanBeWritten state.now) }
    ensures counts { CountsFaults (fault.Cause NotSaved.WriteFault)
        (O.seen out.old).faults (O.seen out.new).faults result }
{
    let walked = walk(state)?;
    write_walked(state, &walked, out)
}

/// Puts the saved page of a page whose things were walked, as `write_state` does.
pub fn write_walked<O: Sink>(state: &State, walked: &Walked, out: &mut O) -> Result<(), SaveFault>
    ensures judged { Judged (told (load_of state.now walked.now.things.keys)) (O.seen out.old)
        (O.seen out.new) (saved_page state.now walked.now.things.keys) result }
    ensures written { OnOk result
        (HaveLiterals (plan (compact state.now walked.now.things.keys))) }
    ensures begun { result ≡ Err (fault.Cause NotSaved.WriteFault)
        → HaveLiterals (plan (compact state.now walked.now.things.keys)) }
    ensures counts { CountsFaults (fault.Cause NotSaved.WriteFault)
        (O.seen out.old).faults (O.seen out.new).faults result }
{
    let weight = weight_of(state, walked)?;
    if weight.things > SAVED_THINGS_LIMIT {
        return Err(SaveFault::Cause(NotSaved::TooMany(weight)));
    }
    if weight.text > SAVED_TEXT_LIMIT {
        return Err(SaveFault::Cause(NotSaved::TooLong(weight)));
    }
    write_plan(state, walked, out)
}

fn write_plan<O: Sink>(state: &State, walked: &Walked, out: &mut O) -> Result<(), SaveFault>
    ensures puts { Puts (O.seen out.old) (O.seen out.new)
        (saved_page state.now walked.now.things.keys) result }
    ensures written { OnOk result
        (HaveLiterals (plan (compact state.now walked.now.things.keys))) }
    ensures begun { result ≡ Err (fault.Cause NotSaved.WriteFault)
        → HaveLiterals (plan (compact state.now walked.now.things.keys)) }
{
    let plan = plan(state, walked)?;
    tell_plan(plan.as_slice());
    put_page(state.alloc(), plan.as_slice(), out)
}

fn put_page<O: Sink>(alloc: Global, plan: &[Rebuild], out: &mut O) -> Result<(), SaveFault>
    ensures { Puts (O.seen out.old) (O.seen out.new) (page_of plan.now) result }
{
    put(HEAD, out)?;
    put_lines(alloc, plan, out)?;
    put(TAIL, out)
}

// The lines of the statements. The memory for one is used again for the next.
fn put_lines<O: Sink>(alloc: Global, plan: &[Rebuild], out: &mut O) -> Result<(), SaveFault>
    ensures { Puts (O.seen out.old) (O.seen out.new) (lines plan.now) result }
{
    let mut lexemes = Vec::new(alloc);
    let mut text = Vec::new(alloc);
    let mut rest = plan;
    while let [rebuild, after @ ..] = rest {
        put_line(alloc, rebuild, &mut lexemes, &mut text, out)?;
        rest = after;
    }
    Ok(())
}

fn put_line<O: Sink>(
    alloc: Global,
    rebuild: &Rebuild,
    lexemes: &mut Vec<Lexeme>,
    text: &mut Vec<u8>,
    out: &mut O,
) -> Result<(), SaveFault>
    ensures { Puts (O.seen out.old) (O.seen out.new) (line rebuild.now) result }
{
    spell_line(alloc, rebuild, lexemes, text)?;
    put(text.as_slice(), out)
}

// The text of a statement's line, in place of what was there.
fn spell_line(
    alloc: Global,
    rebuild: &Rebuild,
    lexemes: &mut Vec<Lexeme>,
    text: &mut Vec<u8>,
) -> Result<(), OutOfMemory>
    ensures { OnOk result (text.new.items ≡ line rebuild.now) }
{
    lexemes.clear();
    push_statement(alloc, rebuild, lexemes)?;
    text.clear();
    push_lexemes(lexemes.as_slice(), text)?;
    text.push(b'\n')?;
    Ok(())
}

fn put<O: Sink>(piece: &[u8], out: &mut O) -> Result<(), SaveFault>
    ensures { Puts (O.seen out.old) (O.seen out.new) piece.now result }
{
    match out.put(piece) {
        Ok(()) => Ok(()),
        Err(PutFault::Failed) => Err(SaveFault::Cause(NotSaved::WriteFault)),
    }
}
