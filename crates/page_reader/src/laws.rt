//! What holds of all tokens and their pages.

ghost use Rattle.std.specs.Prelude.{◌≡◌, ◌∷◌, ◌++◌, [], ℕ, Bool, List, map};
ghost use Rattle.std.specs.List.{All};
ghost use Rattle.std.specs.Str.{IsUtf8};
ghost use Rattle.dom_tree.specs.Node.{Nodes};
ghost use Rattle.page_tokens.specs.declared.token.PageToken.{PageToken as PureToken};
ghost use Rattle.page_tokens.specs.declared.token.RawText.{RawText as PureRawText};
ghost use Rattle.page_reader.specs.declared.page.ScriptText.{ScriptText as PureScript};
ghost use Rattle.page_reader.specs.Bytes.{IsPageOf, IsTextPage};
ghost use Rattle.page_reader.specs.Laws.{GoesOn, HasOneScript, IsScriptPage, script_page};
ghost use Rattle.page_reader.specs.Pages.{PageOf};
ghost use Rattle.page_reader.specs.Replacing.{AreScriptBytes, IsReadAs, as_form_page, places_of, replaced};
ghost use Rattle.page_reader.specs.Worked as worked;
ghost use Rattle.page_reader.specs.Text.{with_line_feeds};
ghost use Rattle.js_core.specs.Text.{AllUnits, utf16_of};

/// No tokens are two pages.
pub fn law_one_page()
    ensures { (tokens : List PureToken) (left right : Nodes) (first second : List PureRawText)
        → PageOf tokens left first → PageOf tokens right second
        → (left ≡ right) × (first ≡ second) }
{}

/// No text and no bytes have two readings.
pub fn law_one_reading()
    ensures texts { (text : List ℕ) (left right : Nodes) (first second : List PureRawText)
        → IsTextPage text left first → IsTextPage text right second
        → (left ≡ right) × (first ≡ second) }
    ensures bytes { (bytes : List ℕ) (left right : Nodes) (first second : List PureScript)
        → IsPageOf bytes left first → IsPageOf bytes right second
        → (left ≡ right) × (first ≡ second) }
{
    page_tokens::law_one_reading();
}

/// Where a page goes on as another page, both have the same nodes and scripts, and what stands behind the first is white space and
/// comments. So a page that is cut off before the end tag of `html` ends is no page.
pub fn law_fronts()
    ensures { (text more : List ℕ) (left right : Nodes) (first second : List PureRawText)
        → IsTextPage text left first → IsTextPage (text ++ more) right second
        → GoesOn more left right first second }
{}

/// The worked page has the texts of its scripts replaced as it says; so has the page without scripts, which stays.
#[tactic(auto, using(crate::proofs::Worked::page_is_replaced))]
pub fn law_worked_replacing()
    ensures { (replaced worked.page worked.places worked.texts ≡ worked.replaced_page)
        × (replaced worked.page [] [] ≡ worked.page) }
{}

/// Where the texts of scripts are replaced by as many bytes that may be a script's text, the new bytes are read as the same nodes with
/// these texts, also behind the mark of a form page where a byte order mark is left out.
pub fn law_replaced_scripts()
    ensures read { (bytes : List ℕ) (nodes : Nodes) (scripts : List PureScript)
        (texts : List (List ℕ)) → IsPageOf bytes nodes scripts → AreScriptBytes scripts texts
        → IsReadAs (replaced bytes (places_of scripts) texts) nodes (map utf16_of texts) }
    ensures marked { (bytes : List ℕ) (nodes : Nodes) (scripts : List PureScript)
        (texts : List (List ℕ)) → IsPageOf bytes nodes scripts → AreScriptBytes scripts texts
        → IsReadAs (as_form_page bytes (places_of scripts) texts) nodes (map utf16_of texts) }
{}

/// The texts of scripts have 16-bit units, so their tokens can be written.
pub fn law_script_units()
    ensures { (bytes : List ℕ) (nodes : Nodes) (scripts : List PureScript)
        → IsPageOf bytes nodes scripts → All AllUnits (map (λ s. s.text) scripts) }
{}

/// A page round one script, behind a byte order mark, the mark of a form page, or neither, is read as `html` with an empty `body` or
/// without, a script without a child, and this script's text.
pub fn law_script_pages()
    ensures text { (text : List ℕ) (with_body : Bool) (script : List ℕ)
        → IsScriptPage text with_body script
        → HasOneScript text (script_page with_body) script }
    ensures bytes { (bytes : List ℕ) (with_body : Bool) (script : List ℕ) → IsUtf8 bytes
        → IsScriptPage (with_line_feeds (utf16_of bytes)) with_body script
        → IsReadAs bytes (script_page with_body) (script ∷ []) }
{}
