//! What holds of the grammar and its reader.

ghost use Rattle.std.specs.Prelude.{◌≡◌, List, Some, None};
ghost use Rattle.js_core.specs.Tree as tree;
ghost use Rattle.js_core.specs.declared.token.Token.{Token};
ghost use Rattle.js_grammar.specs.Endings.{OperatorsAndSuffixesGoOn};
ghost use Rattle.js_grammar.specs.Examples.{AreRead};
ghost use Rattle.js_grammar.specs.ExpressionExamples as expressions;
ghost use Rattle.js_grammar.specs.HeightExamples as heights;
ghost use Rattle.js_grammar.specs.LineEnds.{LineEndsAreHarmless};
ghost use Rattle.js_grammar.specs.ScriptReader.{read_script};
ghost use Rattle.js_grammar.specs.Scripts.{Derives, ScriptOf, height_limit, TokensHaveSyntax};
ghost use Rattle.js_grammar.specs.StatementExamples as statements;

/// Reading is the grammar, for scripts that are no higher than 440: what is read is a script of the tokens, each script of
/// theirs is read, and tokens that are refused have none.
pub fn law_reading_is_the_grammar()
    ensures sound { (tokens : List Token) (script : tree.Stmts) → read_script height_limit tokens
        ≡ Some script → ScriptOf height_limit tokens script }
    ensures complete { (tokens : List Token) (script : tree.Stmts)
        → ScriptOf height_limit tokens script → read_script height_limit tokens ≡ Some script }
    ensures refused { (tokens : List Token) → read_script height_limit tokens ≡ None
        → (script : tree.Stmts) → ScriptOf height_limit tokens script → ⊥ }
{}

/// Tokens have at most one script, of whatever height.
pub fn law_one_script()
    ensures { (tokens : List Token) (s t : tree.Stmts) → Derives tokens s → Derives tokens t → s
        ≡ t }
{}

/// The tree that tokens derive keeps the rules on trees (`IsSyntax`), where each of the tokens can be written. That each tree
/// that keeps them has such tokens is the printer's law.
pub fn law_derived_trees_are_syntax()
    ensures { TokensHaveSyntax }
{}

/// Line ends between the symbols of a script are harmless behind `{`, `;` and `:`, before `}`, and behind a `}` but before a `++` or
/// `--` that no operand follows in its line: tokens with more of them derive the same script (sections 7.9, 11.3 and 11.4).
pub fn law_line_ends_are_harmless()
    ensures { LineEndsAreHarmless }
{}

/// The signs that go on with an expression, so that a line end before them ends no statement (section 7.9), are those that the
/// grammar has behind one: `(`, `[` and the point, the operators between operands, `?`, assignments and the comma.
pub fn law_operators_and_suffixes_go_on()
    ensures { OperatorsAndSuffixesGoOn }
{}

/// The examples that were worked by hand are read as they say.
#[tactic(auto, using(crate::proofs::Worked::operators_are_read, crate::proofs::Worked::operands_are_read, crate::proofs::Worked::ends_are_read, crate::proofs::Worked::forms_are_read, crate::proofs::Worked::heights_are_read))]
pub fn law_examples_are_read()
    ensures operators { AreRead expressions.operators }
    ensures operands { AreRead expressions.operands }
    ensures ends { AreRead statements.ends }
    ensures forms { AreRead statements.forms }
    ensures heights { AreRead heights.heights }
{}
