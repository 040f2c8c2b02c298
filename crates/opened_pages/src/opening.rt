//! The text of a page with opened scopes.

ghost use Rattle.std.specs.Prelude.{◌≡◌, ◌++◌, IfOk, OnOk, map};
ghost use Rattle.instrumenter.specs.Opening.{open_scripts};
ghost use Rattle.js_print.specs.Printing.{script_text};
ghost use Rattle.page_check.specs.Accept.{IsAcceptedAt};
ghost use Rattle.page_check.specs.Rules.{AllKeepRules};
ghost use Rattle.page_check.specs.declared.page.Kind.TheVariants.{Form, Plain};
ghost use Rattle.page_reader.specs.Replacing as replacing;
ghost use Rattle.opened_pages.specs.Opened.{HaveNumbers, Opens, opened_page};

use instrumenter::{law_opened_scripts_are_form, open_scopes};
use js_core::{OutOfMemory, Script};
use js_print::print;
use page_check::{Accepted, CheckedPage, Kind};
use page_reader::{FORM_MARK, Place, replace_scripts};
use std::alloc::Global;

/// The text of an accepted page with opened scopes. Of a plain page it is the mark of form pages and the page, without a byte
/// order mark, in which each script is the opened one, as it is printed; all else stays byte for byte. A form page stays as it is.
pub fn open_page(alloc: Global, bytes: &[u8], accepted: &Accepted) -> Result<Vec<u8>, OutOfMemory>
    requires { IsAcceptedAt bytes.now accepted.now }
    ensures text { IfOk result (λ text. Opens bytes.now accepted.now.page text.items) }
    ensures numbered { OnOk result
        (HaveNumbers accepted.now.page.kind accepted.now.page.scripts) }
{
    let page = accepted.page();
    match page.kind() {
        Kind::Form => Ok(Vec::from_slice(alloc, bytes)?),
        Kind::Plain => open_plain(
            alloc,
            bytes,
            accepted.start(),
            accepted.places(),
            page.scripts(),
        ),
    }
}

/// The page with opened scopes, as a form page. A form page stays as it is.
pub fn open_checked(alloc: Global, page: CheckedPage) -> Result<CheckedPage, OutOfMemory>
    ensures opened { IfOk result (λ opened. opened ≡ opened_page page) }
    ensures numbered { OnOk result (HaveNumbers page.kind page.scripts) }
{
    match page.kind() {
        Kind::Form => Ok(page),
        Kind::Plain => {
            let scripts = opened_form(alloc, page.scripts())?;
            Ok(page.with_scripts(Kind::Form, scripts))
        }
    }
}

// These scripts of a plain page, opened.
fn opened_form(alloc: Global, scripts: &[Script]) -> Result<Vec<Script>, OutOfMemory>
    requires { AllKeepRules Plain scripts.now }
    ensures opened { IfOk result (λ opened. opened.items ≡ open_scripts scripts.now) }
    ensures rules { IfOk result (λ opened. AllKeepRules Form opened.items) }
    ensures numbered { OnOk result (HaveNumbers Plain scripts.now) }
{
    law_opened_scripts_are_form();
    open_scopes(alloc, scripts)
}

// The bytes of a plain page from this place on, with these scripts, opened, in these places, after the mark of form pages.
fn open_plain(
    alloc: Global,
    bytes: &[u8],
    start: u64,
    places: &[Place],
    scripts: &[Script],
) -> Result<Vec<u8>, OutOfMemory>
    requires { AllKeepRules Plain scripts.now }
    ensures text { IfOk result (λ text. text.items ≡ replacing.form_mark
        ++ replacing.replaced_from start bytes.now places.now
        (map script_text (open_scripts scripts.now))) }
    ensures numbered { OnOk result (HaveNumbers Plain scripts.now) }
{
    let opened = open_scopes(alloc, scripts)?;
    let texts = printed(alloc, opened.as_slice())?;
    let mut text = Vec::from_slice(alloc, FORM_MARK)?;
    replace_scripts(bytes, start, places, texts.as_slice(), &mut text)?;
    Ok(text)
}

// The texts of these scripts.
fn printed(alloc: Global, scripts: &[Script]) -> Result<Vec<Vec<u8>>, OutOfMemory>
    ensures { IfOk result (λ texts.
        map (λ t. t.items) texts.items ≡ map script_text scripts.now) }
{
    let mut texts = Vec::new(alloc);
    for script in scripts {
        let mut text = Vec::new(alloc);
        print(alloc, script, &mut text)?;
        texts.push(text)?;
    }
    Ok(texts)
}
