//! Pages, and why bytes are refused.

ghost use Rattle.std.specs.Prelude.{◌≡◌};
ghost use Rattle.page_check.specs.Rules.{AllKeepRules};

use dom_tree::Dom;
use early_rules::EarlyRule;
use js_core::{Failure, Script};
use std::marker::Model;

/// What a page is.
#[derive(Clone, Copy, PartialEq, Eq)]
pub enum Kind {
    /// A page as an author writes it.
    Plain,
    /// A page that begins with the mark of form pages: each of its captured variables is a `$$` name that is set
    /// once.
    Form,
}

/// A page whose scripts keep the rules of its kind: each is a tree that some tokens have, breaks no early rule, is no higher
/// than may be, and keeps the form of the page. Contracts see its kind, its nodes, and the trees of its scripts, in document
/// order.
#[derive(Drop)]
pub struct CheckedPage {
    kind: Kind,
    dom: Dom,
    scripts: Vec<Script>,
}

impl Model for CheckedPage {
    ghost use Rattle.page_check.specs.Rules.{AllKeepRules, Page};
    ghost use Rattle.page_check.specs.CodedPage.{coded_page};

    ghost Value = { Page };

    ghost coded = { coded_page };

    ghost view = { λ a. record { kind = a.kind; nodes = a.dom; scripts = a.scripts.items } };

    ghost invariant = { λ a. AllKeepRules a.kind a.scripts.items };
}

impl CheckedPage {
    /// The page of this kind with these nodes and scripts.
    pub fn new(kind: Kind, dom: Dom, scripts: Vec<Script>) -> CheckedPage
        requires { AllKeepRules kind scripts.items }
        ensures { result ≡ record { kind = kind; nodes = dom; scripts = scripts.items } }
    {
        CheckedPage { kind, dom, scripts }
    }

    /// The page of this kind with the same nodes and other scripts.
    pub fn with_scripts(self, kind: Kind, scripts: Vec<Script>) -> CheckedPage
        requires { AllKeepRules kind scripts.items }
        ensures { result ≡ record { kind = kind; nodes = self.nodes; scripts = scripts.items } }
    {
        CheckedPage {
            kind,
            dom: self.dom,
            scripts,
        }
    }

    /// What the page is. Its scripts keep the rules of that kind.
    pub fn kind(&self) -> Kind
        ensures kind { result ≡ self.now.kind }
        ensures rules { AllKeepRules self.now.kind self.now.scripts }
    {
        self.kind
    }

    /// Its nodes.
    pub fn dom(&self) -> &Dom
        ensures { result.now ≡ self.now.nodes }
    {
        &self.dom
    }

    /// Its scripts, in document order.
    pub fn scripts(&self) -> &[Script]
        ensures { result.now ≡ self.now.scripts }
    {
        self.scripts.as_slice()
    }

    /// Its nodes and its scripts, without a copy.
    pub fn into_parts(self) -> (Dom, Vec<Script>)
        ensures { (result.0 ≡ self.nodes) × (result.1.items ≡ self.scripts) }
    {
        (self.dom, self.scripts)
    }

    /// Its scripts, without a copy.
    pub fn into_scripts(self) -> Vec<Script>
        ensures { result.items ≡ self.scripts }
    {
        self.scripts
    }
}

/// Why a page is refused, in the order in which the causes are tried. A number is that of the script, counted from 1.
#[derive(Clone, Copy, PartialEq, Eq)]
pub enum Refusal {
    /// The bytes are no UTF-8.
    NotUtf8,
    /// They are UTF-8 that is no page.
    NotPage,
    /// The script's text has no tokens.
    NotTokens(u64),
    /// Its tokens have no tree that is at most 440 high.
    NotScript(u64),
    /// Its directive prologue has no strict directive.
    NotStrict(u64),
    /// It breaks this early rule, and none with a lower number.
    Early(u64, EarlyRule),
    /// It, or a function of a form page that is no factory, is too high.
    TooDeep(u64),
    /// An identifier of a plain page begins with `$$`.
    ReservedName(u64),
    /// The script of a form page is not in form.
    NotForm(u64),
}

/// Why bytes are not accepted as a page: the page is refused, or memory ran out.
pub type AcceptFault = Failure<Refusal>;
