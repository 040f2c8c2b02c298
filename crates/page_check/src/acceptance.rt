//! Accepting a page.

ghost use Rattle.std.specs.Prelude.{◌≡◌, IfOk, IfErr, length, map};
ghost use Rattle.js_core.specs.Text.{utf16_of};
ghost use Rattle.page_check.specs.Accept as spec;
ghost use Rattle.page_check.specs.Accept.{AreNotScripts, ArePageScripts, IsAcceptedAt, IsNotAccepted, texts_of};
ghost use Rattle.page_check.specs.Rules.{AllKeepRules};
ghost use Rattle.page_reader.specs.Bytes.{IsPageOf};
ghost use Rattle.page_reader.specs.Replacing.{places_of};
ghost use Rattle.page_reader.specs.Text.{mark_size};

use crate::page::{AcceptFault, CheckedPage, Kind, Refusal};
use crate::script::page_script;
use js_core::{OutOfMemory, Script};
use page_reader::{FORM_MARK, Page, PageError, PageFault, Place, ScriptText, read_page};
use std::alloc::Global;
use std::marker::Model;

/// An accepted page, and where its parts stand in its bytes: what is needed to open it. Its scripts keep the rules of its kind,
/// and each stands at a place. Only `accept` makes one. Contracts see the page, how many bytes a byte order mark has before
/// it, and where the texts of its scripts stand, in document order.
#[derive(Drop)]
pub struct Accepted {
    page: CheckedPage,
    start: u64,
    places: Vec<Place>,
}

impl Model for Accepted {
    ghost use Rattle.page_check.specs.Accept.{AcceptedPage};
    ghost use Rattle.page_check.specs.CodedAccepted.{coded_accepted};

    ghost Value = { AcceptedPage };

    ghost coded = { coded_accepted };

    ghost view = { λ a. record { page = a.page; start = a.start; places = a.places.items } };
}

impl Accepted {
    /// The page.
    pub fn page(&self) -> &CheckedPage
        ensures { result.now ≡ self.now.page }
    {
        &self.page
    }

    /// The bytes of a byte order mark, which stands before its text.
    pub fn start(&self) -> u64
        ensures { result ≡ self.now.start }
    {
        self.start
    }

    /// Where the texts of its scripts stand, in document order.
    pub fn places(&self) -> &[Place]
        ensures { result.now ≡ self.now.places }
    {
        self.places.as_slice()
    }

    /// The page, without a copy.
    pub fn into_page(self) -> CheckedPage
        ensures { result ≡ self.page }
    {
        self.page
    }
}

/// The kind, the nodes and the scripts of a page, and where they stand. The first cause of refusal is the answer: the bytes are
/// no UTF-8, they are no page, or of its scripts, in document order, one has no tokens, has no tree, is not strict, breaks an
/// early rule, is too high, or in a plain page has an identifier that begins with `$$`, or in a form page is not in form.
pub fn accept(alloc: Global, bytes: &[u8]) -> Result<Accepted, AcceptFault>
    ensures ok { IfOk result (IsAcceptedAt bytes.now) }
    ensures refused { IfErr result (IsNotAccepted bytes.now) }
{
    let kind = kind_of(bytes);
    let found = read_bytes(alloc, bytes)?;
    let places = places(alloc, found.scripts.as_slice())?;
    let scripts = page_scripts(alloc, kind, found.scripts)?;
    Ok(Accepted {
        page: CheckedPage::new(kind, found.dom, scripts),
        start: found.start,
        places,
    })
}

/// What a page with these bytes is.
fn kind_of(bytes: &[u8]) -> Kind
    ensures { result ≡ spec.kind_of bytes.now }
{
    if bytes.starts_with(FORM_MARK) {
        Kind::Form
    } else {
        Kind::Plain
    }
}

/// The page that the bytes are.
fn read_bytes(alloc: Global, bytes: &[u8]) -> Result<Page, AcceptFault>
    ensures read { IfOk result (λ page. IsPageOf bytes.now page.dom page.scripts.items) }
    ensures start { IfOk result (λ page. page.start ≡ mark_size (utf16_of bytes.now)) }
    ensures refused { IfErr result (IsNotAccepted bytes.now) }
{
    match read_page(alloc, bytes) {
        Ok(page) => Ok(page),
        Err(PageFault::Cause(PageError::NotUtf8)) => Err(AcceptFault::Cause(Refusal::NotUtf8)),
        Err(PageFault::Cause(PageError::NotPage)) => Err(AcceptFault::Cause(Refusal::NotPage)),
        Err(PageFault::OutOfMemory) => Err(AcceptFault::OutOfMemory),
    }
}

/// Where these scripts stand.
fn places(alloc: Global, scripts: &[ScriptText]) -> Result<Vec<Place>, OutOfMemory>
    ensures { IfOk result (λ places. places.items ≡ places_of scripts.now) }
{
    let mut places = Vec::new(alloc);
    for script in scripts {
        places.push(script.place)?;
    }
    Ok(places)
}

/// The trees of these scripts, in document order. Each text goes as soon as it is read.
fn page_scripts(
    alloc: Global,
    kind: Kind,
    found: Vec<ScriptText>,
) -> Result<Vec<Script>, AcceptFault>
    ensures ok { IfOk result (λ scripts.
        ArePageScripts kind (texts_of found.items) scripts.items) }
    ensures rules { IfOk result (λ scripts. AllKeepRules kind scripts.items) }
    ensures refused { IfErr result (AreNotScripts kind (texts_of found.items)) }
{
    let mut scripts = Vec::new(alloc);
    for script in found {
        let number = scripts.len() as u64 + 1;
        scripts.push(page_script(alloc, kind, number, script.text)?)?;
    }
    Ok(scripts)
}
