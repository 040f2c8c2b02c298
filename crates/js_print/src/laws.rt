//! What holds of printed trees and texts.

ghost use Rattle.js_grammar.specs.Scripts.{TokensHaveSyntax};
ghost use Rattle.js_print.specs.Laws.{ScriptsHaveNoEndTag, CodesHaveNoEndTag, ScriptsHaveNoControl, CodesHaveNoControl, TextIsAscii};
ghost use Rattle.js_print.specs.Lined.{LinedScriptsAreReadAgain};
ghost use Rattle.js_print.specs.ReadAgain.{ScriptsAreReadAgain};
ghost use Rattle.js_print.specs.ReadBack.{LexemesDeriveTheTree};
ghost use Rattle.js_print.specs.Written.{ScriptsAreReadBack, CodesAreReadBack, TokensCanBeWritten, LexemesCanBeWritten, CodesCanBeWritten, SyntaxHasTokens};

/// The law on what trees there are: tokens each of which can be written derive a script exactly where it keeps the rules on
/// trees (`IsSyntax`, ECMA-262 5.1 sections 7.6 and 11 to 14).
pub fn law_syntax_is_what_tokens_have()
    ensures has_tokens { SyntaxHasTokens }
    ensures of_tokens { TokensHaveSyntax }
{}

/// The law that the lexemes of a tree are read back: where a script keeps the rules on trees, the tokens that are its printed
/// lexemes derive it (section 14), and each of these lexemes can be written.
pub fn law_printed_lexemes_derive_the_tree()
    ensures derived { LexemesDeriveTheTree }
    ensures written { LexemesCanBeWritten }
    ensures codes { CodesCanBeWritten }
{}

/// The law that the tokens of a printed text are its lexemes (section 7), with no line end before one, where each lexeme
/// can be written.
pub fn law_printed_text_has_these_tokens()
    ensures scripts { ScriptsAreReadBack }
    ensures codes { CodesAreReadBack }
{}

/// The law that a printed script is read again (sections 7 and 14): where it keeps the rules on trees, its text is UTF-8 without
/// an end tag or a control character, and has tokens that derive the script, and are strict where it begins with the strict
/// directive (section 14.1).
pub fn law_printed_scripts_are_read_again()
    ensures { ScriptsAreReadAgain }
{}

/// The law that a printed script is read again also with line ends between its lexemes, where none stands but behind `{`,
/// `;`, `:` and `}`, and before `}`: so a page may have one before each statement (section 7.9).
pub fn law_lined_scripts_are_read_again()
    ensures { LinedScriptsAreReadAgain }
{}

/// The law that the tokens of a text can be written.
pub fn law_tokens_can_be_written()
    ensures { TokensCanBeWritten }
{}

/// The law that no printed text has an end tag: where the tree keeps the rules on trees, no `<` stands before a `/`, so that
/// the text can stand in a `script` element.
pub fn law_printed_text_has_no_end_tag()
    ensures scripts { ScriptsHaveNoEndTag }
    ensures codes { CodesHaveNoEndTag }
{}

/// The law that no printed text of a tree that keeps the rules on trees has a control character (U+0000 to U+001F, U+007F to
/// U+009F) or a lone surrogate.
pub fn law_printed_text_has_no_control_character()
    ensures scripts { ScriptsHaveNoControl }
    ensures codes { CodesHaveNoControl }
{}

/// The law that a printed text is ASCII but for its names.
pub fn law_printed_text_is_ascii()
    ensures { TextIsAscii }
{}
