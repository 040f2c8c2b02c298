//! What holds of saved pages.

ghost use Rattle.page_writer.specs.FormScripts.{SavedScriptsAreForm};
ghost use Rattle.page_writer.specs.Length.{PagesAreShort};
ghost use Rattle.page_writer.specs.Writable.{StatementsAreSyntax};

/// Each statement that can be written is a tree that some tokens have, and low.
pub fn law_statements_are_syntax()
    ensures { StatementsAreSyntax }
{}

/// The text of a page at rest, which has no more things than may be saved and writes numbers and texts of the language, has at most
/// 160 bytes for each thing, as `Weight` counts them, besides its bytes of text, and 4,096 more.
pub fn law_pages_are_short()
    ensures { PagesAreShort }
{}

/// The script of a saved page is one of a form page.
pub fn law_saved_scripts_are_form()
    ensures { SavedScriptsAreForm }
{}
