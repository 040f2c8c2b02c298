//! A page while host events act on it.

ghost use Rattle.std.specs.Prelude.{◌≡◌, [], IfOk, OnErr, OnOk, codes, false, true};
ghost use Rattle.js_values.specs.declared.line.LineKind.TheVariants.{Dom};
ghost use Rattle.dom_tree.specs.DomText.{dom_text};
ghost use Rattle.page_meaning.specs.Pages.{after_scripts, do_event, document_node, load_of, on_element, with_input};
ghost use Rattle.page_meaning.specs.Store.{with_line, without_lines};
ghost use Rattle.page_meaning.specs.Tasks.{Fires, after_task};
ghost use Rattle.session.specs.Elements.{IsElement};

use code_numbering::script_code;
use js_core::{OutOfMemory, Script, Units, ascii_text};
use js_values::{Event, Line, LineKind, NodeId};
use page_check::{CheckedPage, Kind};
use page_machine::{Task, run_task};
use page_start::pristine;
use page_state::State;
use std::alloc::Global;
use std::marker::Model;

/// A page while host events act on it. One that wanted memory is spent: nothing is said of its page any more.
pub struct Session {
    state: State,
    is_spent: bool,
}

// A function of its own, so that the crates above cite it and do not prove it again.
impl Drop for Session {
    fn drop(self) {
        let Session {
            state: _state,
            is_spent: _is_spent,
        } = self;
    }
}

impl Model for Session {
    ghost use Rattle.session.specs.Acting.{Acting};
    ghost use Rattle.session.specs.CodedActing.{coded_acting};

    ghost Value = { Acting };

    ghost coded = { coded_acting };

    ghost view = { λ s. record { page = s.state; is_spent = s.is_spent } };
}

/// The page once its scripts have run, in document order.
pub fn load(alloc: Global, page: CheckedPage) -> Result<Session, OutOfMemory>
    ensures page { IfOk result (λ s. s.page ≡ load_of (record {
      nodes = page.nodes;
      scripts = page.scripts;
    })) }
    ensures fresh { IfOk result (λ s. s.is_spent ≡ false) }
{
    let noted = is_in_form(&page);
    let (dom, scripts) = page.into_parts();
    let state = run_page(alloc, dom, scripts, noted)?;
    Ok(Session {
        state,
        is_spent: false,
    })
}

// Whether the page is one that can be saved: the functions of others need no notes.
fn is_in_form(page: &CheckedPage) -> bool {
    page.kind() == Kind::Form
}

// A page with these nodes, once these scripts have run.
fn run_page(
    alloc: Global,
    dom: dom_tree::Dom,
    scripts: Vec<Script>,
    noted: bool,
) -> Result<State, OutOfMemory>
    ensures { IfOk result (λ s. s ≡ load_of (record { nodes = dom; scripts = scripts.items })) }
{
    let mut state = pristine(alloc, dom)?;
    run_scripts(alloc, &mut state, scripts, noted)?;
    Ok(state)
}

// Runs the scripts in order, each a task of its own.
fn run_scripts(
    alloc: Global,
    state: &mut State,
    scripts: Vec<Script>,
    noted: bool,
) -> Result<(), OutOfMemory>
    ensures { OnOk result (state.new ≡ after_scripts scripts.items state.old) }
{
    for script in scripts {
        let code = script_code(alloc, script, noted)?;
        run_task(state, Task::Script(code))?;
    }
    Ok(())
}

// What a host event does to a page.
fn act_on(state: &mut State, event: &Event) -> Result<(), OutOfMemory>
    ensures { OnOk result (state.new ≡ do_event event.now state.old) }
{
    match event {
        Event::Call(name) => run_task(state, Task::Name(name.clone()?)),
        Event::Fire {
            kind,
            at,
            bubbles,
            cancelable,
        } => fire(state, kind, at, *bubbles, *cancelable),
        Event::Input { text, at } => input(state, text, at),
        Event::Tick(time) => run_task(state, Task::Passes(*time)),
        Event::Dom => put_dom(state),
    }
}

// The element with the id, or a line where there is none.
fn element(state: &mut State, id: &Units) -> Result<Option<NodeId>, OutOfMemory>
    ensures { IfOk result (λ found. IsElement id.now state.old found state.new) }
{
    match state.host().dom().find_id(id) {
        Some(node) => Ok(Some(node)),
        None => {
            let text = Units::of(state.alloc(), &[])?;
            state.put_line(LineKind::NoElement, text)?;
            Ok(None)
        }
    }
}

// An event is dispatched at the element with the id.
fn fire(
    state: &mut State,
    kind: &Units,
    at: &Units,
    bubbles: bool,
    cancelable: bool,
) -> Result<(), OutOfMemory>
    ensures { OnOk result (state.new ≡ on_element at.now (λ k.
        after_task (Fires kind.now bubbles cancelable k)) state.old) }
{
    match element(state, at)? {
        Some(node) => run_task(state, Task::Fires(kind.clone()?, bubbles, cancelable, node)),
        None => Ok(()),
    }
}

// The value is set, where the element takes one, and then `input` is dispatched.
fn input(state: &mut State, text: &Units, at: &Units) -> Result<(), OutOfMemory>
    ensures { OnOk result (state.new ≡ on_element at.now (λ k s.
        after_task (Fires (codes "input") true false k) (with_input text.now k s)) state.old) }
{
    match element(state, at)? {
        Some(node) => {
            state.set_input(node, text.clone()?);
            let kind = ascii_text(state.alloc(), b"input")?;
            run_task(state, Task::Fires(kind, true, false, node))
        }
        None => Ok(()),
    }
}

// The text of the document is put out.
fn put_dom(state: &mut State) -> Result<(), OutOfMemory>
    ensures { OnOk result (state.new ≡ with_line Dom (dom_text state.old.host.nodes document_node)
        state.old) }
{
    let text = document_text(state)?;
    state.put_line(LineKind::Dom, text)
}

// The text of the document, which is always there.
fn document_text(state: &State) -> Result<Units, OutOfMemory>
    ensures { IfOk result (λ text. text ≡ dom_text state.now.host.nodes document_node) }
{
    let dom = state.host().dom();
    let _count = dom.count();
    let mut units = Vec::new(state.alloc());
    dom.dom_text(NodeId(0), &mut units)?;
    Units::of(state.alloc(), units.as_slice())
}

impl Session {
    /// One host event, whose lines are appended. A session that wanted memory is spent: it does nothing more, and every later
    /// event wants memory, too.
    pub fn act(&mut self, event: &Event) -> Result<(), OutOfMemory>
        ensures page { OnOk result (self.new.page ≡ do_event event.now self.old.page) }
        ensures there { OnOk result (self.old.is_spent ≡ false) }
        ensures fresh { OnOk result (self.new.is_spent ≡ false) }
        ensures spent { OnErr result (self.new.is_spent ≡ true) }
    {
        if self.is_spent {
            return Err(OutOfMemory);
        }
        self.is_spent = true;
        act_on(&mut self.state, event)?;
        self.is_spent = false;
        Ok(())
    }

    /// The page as it is. Takes no memory.
    pub fn state(&self) -> &State
        ensures { result.now ≡ self.now.page }
    {
        &self.state
    }

    /// The lines that it put out since it was loaded, or since they were dropped. Takes no memory.
    pub fn lines(&self) -> &[Line]
        ensures { result.now ≡ self.now.page.lines }
    {
        self.state.lines()
    }

    /// Drops its lines. Takes no memory.
    pub fn clear_lines(&mut self)
        ensures page { self.new.page ≡ without_lines self.old.page }
        ensures spent { self.new.is_spent ≡ self.old.is_spent }
    {
        self.state.clear_lines();
    }
}
