//! What a function object holds.

ghost use Rattle.std.specs.Prelude.{◌≡◌, ◌≤◌, [], IfOk, length, map, is_some, option_copied, true};
ghost use Rattle.code_table.specs.Declarations.{name_of, formals_of, functions_of, variables_of, held, unnamed};
ghost use Rattle.code_table.specs.Kind.{kind_of};
ghost use Rattle.code_table.specs.Table.{Tells, declared_as, row_of};
ghost use Rattle.code_table.specs.Node.{node_at, and_child, part_count, block_node, body_of, nodes_of, stmts_parts};
ghost use Rattle.code_table.specs.Notes.{AreNoted};
ghost use Rattle.code_table.specs.Rows.{no_number, rows_of, with_parts};

use crate::entry::{Entry, entry_at, number_at};
use crate::kind::Kind;
use crate::notes::Notes;
use js_core::{Code, OutOfMemory, Units};
use std::alloc::Global;
use std::marker::Model;
use std::rc::Rc;

/// A function declaration: its name, and its code without the name.
#[cycle(code)]
#[derive(Drop)]
pub struct Declared {
    pub name: Option<Units>,
    pub code: FunctionCode,
}

// The table of a function. The number of its body is the last one.
#[cycle(code)]
#[derive(Drop)]
pub struct Table {
    pub code: Rc<Code>,
    pub named: bool,
    pub entries: Vec<Entry>,
    pub body: u32,
    pub variables: Vec<Units>,
    pub functions: Vec<Declared>,
    pub notes: Option<Notes>,
    // The kind where there is no node.
    pub nothing: Kind,
}

/// A function of a script (ECMA-262 5.1 section 13), or the script itself, which contracts see as its tree. Its nodes have
/// numbers, less than 2^32 of them. A clone shares it.
#[cycle(code)]
pub struct FunctionCode {
    table: Rc<Table>,
}

impl Model for FunctionCode {
    ghost use Rattle.js_core.specs.Tree as tree;
    ghost use Rattle.js_core.specs.Codes.{coded_code};

    ghost Value = { tree.Code };

    ghost coded = { coded_code };

    ghost use Rattle.js_core.specs.Sizes.{code_size};

    ghost size = { code_size };

    ghost use Rattle.code_table.specs.Table.{IsTable, code_of};

    ghost view = { λ f. code_of f.table.value };

    ghost invariant = { λ f. IsTable f.table.value };

    ghost use Rattle.code_table.specs.Falls.{table_falls};

    ghost size_decreases = { table_falls };
}

// A function of its own, so that the crates above cite it and do not prove it again.
impl Drop for FunctionCode {
    #[cycle(dropping)]
    fn drop(self) {
        let FunctionCode { table: _table } = self;
    }
}

impl FunctionCode {
    /// The function, held with its name or without, of which these are the entries of its nodes, the number of its body, the names and
    /// functions that it declares, and what is noted of it, if anything is.
    pub fn new(
        alloc: Global,
        code: &Rc<Code>,
        named: bool,
        entries: Vec<Entry>,
        body: u32,
        variables: Vec<Units>,
        functions: Vec<Declared>,
        notes: Option<Notes>,
    ) -> Result<FunctionCode, OutOfMemory>
        requires rows { map row_of entries.items ≡ rows_of code.now.value }
        requires few { length entries.items ≤ no_number }
        requires body { body ≡ length (with_parts [] (stmts_parts (body_of code.now.value))) }
        requires variables { variables.items ≡ variables_of (body_of code.now.value) }
        requires functions { map declared_as functions.items
            ≡ functions_of (body_of code.now.value) }
        requires notes { AreNoted (held named code.now.value) notes }
        ensures { IfOk result (λ f. f ≡ held named code.now.value) }
    {
        let table = Table {
            code: code.clone()?,
            named,
            entries,
            body,
            variables,
            functions,
            notes,
            nothing: Kind::Nothing,
        };
        Ok(FunctionCode {
            table: Rc::new(alloc, table)?,
        })
    }

    /// The same function, which shares the table.
    pub fn clone(&self) -> Result<FunctionCode, OutOfMemory>
        ensures { IfOk result (λ code. code ≡ self.now) }
    {
        Ok(FunctionCode {
            table: self.table.clone()?,
        })
    }

    // What is held of a number.
    fn entry(&self, node: u32) -> Option<&Entry>
        ensures { Tells self.now (option_copied result) node }
    {
        entry_at(self.table.entries.as_slice(), node)
    }

    /// The kind of the node of this number.
    pub fn kind(&self, node: u32) -> &Kind
        ensures { result.now ≡ kind_of (node_at self.now node) }
    {
        match self.entry(node) {
            Some(entry) => &entry.kind,
            None => &self.table.nothing,
        }
    }

    /// The number of a node's part. Where there is none, no node has the number.
    pub fn part(&self, node: u32, k: u64) -> u32
        ensures { node_at self.now result ≡ and_child (node_at self.now node) k }
    {
        match self.entry(node) {
            Some(entry) => number_at(entry.parts.as_slice(), k),
            None => u32::MAX,
        }
    }

    /// How many parts a node has, absent ones counted.
    pub fn part_count(&self, node: u32) -> usize
        ensures { result ≡ part_count (node_at self.now node) }
    {
        match self.entry(node) {
            Some(entry) => entry.parts.len(),
            None => 0,
        }
    }

    /// How many nodes there are: the numbers of nodes are those below it.
    #[tactic(auto, using(crate::proofs::Told::node_count))]
    pub fn node_count(&self) -> u32
        ensures { result ≡ length (nodes_of self.now) }
    {
        self.table.entries.len() as u32
    }

    /// Whether a node has such a part.
    #[tactic(auto, using(crate::proofs::Told::is_there, crate::proofs::Told::is_past))]
    pub fn has_part(&self, node: u32, k: u64) -> bool
        ensures { result ≡ is_some (and_child (node_at self.now node) k) }
    {
        let number = self.part(node, k);
        let count = self.node_count();
        if number < count { true } else { false }
    }

    /// The number of its body.
    #[tactic(auto, using(crate::proofs::Told::body_last))]
    pub fn body(&self) -> u32
        ensures { node_at self.now result ≡ Some (block_node (body_of self.now)) }
    {
        self.table.body
    }

    /// Its name, if it is held with one.
    pub fn name(&self) -> Option<&Units>
        ensures { option_copied result ≡ name_of self.now }
    {
        if self.table.named {
            self.table.code.name.as_ref()
        } else {
            None
        }
    }

    /// Its formals.
    pub fn formals(&self) -> &[Units]
        ensures { result.now ≡ formals_of self.now }
    {
        self.table.code.formals.as_slice()
    }

    /// The names that its variable statements declare, in source order.
    pub fn variables(&self) -> &[Units]
        ensures { result.now ≡ variables_of (body_of self.now) }
    {
        self.table.variables.as_slice()
    }

    /// The functions that it declares, in source order.
    pub fn functions(&self) -> &[Declared]
        ensures { map declared_as result.now ≡ functions_of (body_of self.now) }
    {
        self.table.functions.as_slice()
    }

    /// What is noted of it. Which functions have notes is up to whoever numbers them: those of pages in form that are nested at most so
    /// deep. What another needs, and how long it is, is told by going through its code.
    pub fn notes(&self) -> Option<&Notes>
        ensures { AreNoted self.now (option_copied result) }
    {
        self.table.notes.as_ref()
    }

    /// The tree. Where the function is held without its name, the tree may have it.
    pub fn source(&self) -> &Code
        ensures unnamed { unnamed result.now ≡ unnamed self.now }
        ensures named { is_some (name_of self.now) ≡ true → result.now ≡ self.now }
    {
        &self.table.code
    }
}
