//! What holds of answers.

ghost use Rattle.std.specs.Prelude.{◌≡◌, ℕ, List};
ghost use Rattle.page_check.specs.Accept.{IsAccepted, IsRefused};
ghost use Rattle.page_check.specs.Rules.{Page};
ghost use Rattle.page_check.specs.declared.page.Refusal.{Refusal};

use js_grammar::law_one_script;
use js_lexer::law_one_reading;
use page_reader::law_one_reading as law_one_page;

/// Bytes are accepted in one way, or refused for one cause, and not both; and none are neither.
pub fn law_one_answer()
    ensures accepted { (bytes : List ℕ) (page other : Page) → IsAccepted bytes page
        → IsAccepted bytes other → page ≡ other }
    ensures refused { (bytes : List ℕ) (cause other : Refusal) → IsRefused bytes cause
        → IsRefused bytes other → cause ≡ other }
    ensures not_both { (bytes : List ℕ) (page : Page) (cause : Refusal) → IsAccepted bytes page
        → IsRefused bytes cause → ⊥ }
    ensures some { (bytes : List ℕ) → ((page : Page) → ¬ IsAccepted bytes page)
        → ((cause : Refusal) → ¬ IsRefused bytes cause) → ⊥ }
{
    law_one_reading();
    law_one_script();
    law_one_page();
}
