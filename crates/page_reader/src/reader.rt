//! Pages from bytes.

ghost use Rattle.std.specs.Prelude.{◌≡◌, ◌<◌, ◌^◌, List, IfOk};
ghost use Rattle.js_core.specs.Memory.{IfCause};
ghost use Rattle.js_core.specs.Text.{utf16_of};
ghost use Rattle.dom_tree.specs.Node.{Nodes};
ghost use Rattle.page_tokens.specs.declared.token.RawText.{RawText as PureRawText};
ghost use Rattle.page_reader.specs.declared.page.ScriptText.{ScriptText as PureScript};
ghost use Rattle.page_reader.specs.Bytes.{IsNoPage, IsPageOf, IsTextPage, IsUnitsPage};
ghost use Rattle.page_reader.specs.Text as spec;

use crate::fault::{NotPage, PageError, PageFault, TreeFault};
use crate::page::Page;
use crate::places::placed;
use crate::text::{has_mark, has_zero, with_line_feeds};
use crate::tree::page_of_tokens;
use dom_tree::Dom;
use js_core::Units;
use page_tokens::{NotTokens, RawText, TokenFault, law_one_reading, tokens_of};
use std::alloc::Global;

/// The page that the bytes are: its nodes, and its scripts with their places in the bytes. `NotUtf8` where they are no UTF-8,
/// and `NotPage` where they are and have no reading. The time is linear in the bytes.
pub fn read_page(alloc: Global, bytes: &[u8]) -> Result<Page, PageFault>
    ensures read { IfOk result (λ page. IsPageOf bytes.now page.dom page.scripts.items) }
    ensures start { IfOk result (λ page. page.start ≡ spec.mark_size (utf16_of bytes.now)) }
    ensures refused { IfCause result (IsNoPage bytes.now) }
{
    let Ok(text) = str::from_utf8(bytes) else {
        return Err(PageFault::Cause(PageError::NotUtf8));
    };
    let _size = bytes.len();
    let units = Units::from_utf8(alloc, text)?;
    match page_of_units(alloc, units.as_slice()) {
        Ok(page) => Ok(page),
        Err(TreeFault::Cause(NotPage)) => Err(PageFault::Cause(PageError::NotPage)),
        Err(TreeFault::OutOfMemory) => Err(PageFault::OutOfMemory),
    }
}

/// The page of a file with these units.
fn page_of_units(alloc: Global, units: &[u16]) -> Result<Page, TreeFault>
    requires short { spec.size_of units.now < 2 ^ 64 }
    ensures read { IfOk result (λ page. IsUnitsPage units.now page.dom page.scripts.items) }
    ensures start { IfOk result (λ page. page.start ≡ spec.mark_size units.now) }
    ensures refused { IfCause result (λ _. (nodes : Nodes) (scripts : List PureScript)
        → IsUnitsPage units.now nodes scripts → ⊥) }
{
    if has_zero(units) {
        return Err(TreeFault::Cause(NotPage));
    }
    let (start, inner) = behind_mark(units);
    let text = with_line_feeds(alloc, inner)?;
    let (dom, raws) = page_of_text(alloc, text.as_slice())?;
    let scripts = placed(alloc, inner, start, raws.as_slice())?;
    Ok(Page {
        dom,
        scripts,
        start,
    })
}

/// The bytes of a byte order mark, where there is one, and what stands behind it.
fn behind_mark(units: &[u16]) -> (u64, &[u16])
    ensures skipped { result.0 ≡ spec.mark_size units.now }
    ensures rest { result.1.now ≡ spec.without_mark units.now }
{
    if has_mark(units) {
        (3, &units[1..])
    } else {
        (0, units)
    }
}

/// The nodes and the scripts of the page whose text this is.
fn page_of_text(alloc: Global, text: &[u16]) -> Result<(Dom, Vec<RawText>), TreeFault>
    ensures read { IfOk result (λ page. IsTextPage text.now page.0 page.1.items) }
    ensures refused { IfCause result (λ _. (nodes : Nodes) (raws : List PureRawText)
        → IsTextPage text.now nodes raws → ⊥) }
{
    law_one_reading();
    match tokens_of(alloc, text) {
        Ok(tokens) => page_of_tokens(alloc, tokens.as_slice()),
        Err(TokenFault::Cause(NotTokens)) => Err(TreeFault::Cause(NotPage)),
        Err(TokenFault::OutOfMemory) => Err(TreeFault::OutOfMemory),
    }
}
