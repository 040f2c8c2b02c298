//! Rows of a table while it is made.

ghost use Rattle.std.specs.Prelude.{◌≡◌, ◌≤◌, ◌++◌, ◌∷◌, [], IfOk, OnOk, length, map};
ghost use Rattle.code_table.specs.Rows.{no_number};
ghost use Rattle.code_numbering.specs.Numbered.{known, numbered_row};

use code_table::Kind;
use js_core::{Code, OutOfMemory};
use std::alloc::Global;
use std::marker::Model;
use std::rc::Rc;

/// The kind of a node that is numbered, or a function whose table is not made yet.
#[derive(Drop)]
pub enum NodeKind {
    Known(Kind),
    Function(Rc<Code>),
}

/// A node that is numbered, with the numbers of its parts.
#[derive(Drop)]
pub struct Numbered {
    pub kind: NodeKind,
    pub parts: Vec<u32>,
}

/// The rows of the nodes that are numbered. There are less than 2^32.
#[derive(Drop)]
pub struct Rows {
    nodes: Vec<Numbered>,
}

impl Model for Rows {
    ghost use Rattle.std.specs.Prelude.{List, ◌≤◌, length, map};
    ghost use Rattle.code_table.specs.Rows.{Row, no_number};

    ghost Value = { List Row };

    ghost use Rattle.code_numbering.specs.CodedRows.{coded_rows};

    ghost coded = { coded_rows };

    ghost use Rattle.code_numbering.specs.Numbered.{numbered_row};

    ghost view = { λ r. map numbered_row r.nodes.items };

    ghost invariant = { λ r. length r.nodes.items ≤ no_number };
}

impl Rows {
    /// No rows.
    pub fn new(alloc: Global) -> Rows
        ensures { result ≡ [] }
    {
        Rows {
            nodes: Vec::new(alloc),
        }
    }

    /// Numbers a node, whose parts have these numbers. More than 2^32 - 1 nodes are want of memory.
    pub fn push(&mut self, kind: NodeKind, parts: Vec<u32>) -> Result<u32, OutOfMemory>
        ensures row { OnOk result (self.new ≡ self.old
            ++ record { kind = known kind; parts = parts.items } ∷ []) }
        ensures number { IfOk result (λ number. number ≡ length self.old) }
    {
        let number = self.nodes.len();
        if number >= u32::MAX as usize {
            return Err(OutOfMemory);
        }
        self.nodes.push(Numbered { kind, parts })?;
        Ok(number as u32)
    }

    /// Numbers a node, and appends its number to those of the parts of another one.
    pub fn push_part(
        &mut self,
        kind: NodeKind,
        inside: Vec<u32>,
        parts: &mut Vec<u32>,
    ) -> Result<(), OutOfMemory>
        ensures row { OnOk result (self.new ≡ self.old
            ++ record { kind = known kind; parts = inside.items } ∷ []) }
        ensures part { OnOk result (parts.new.items ≡ parts.old.items ++ length self.old ∷ []) }
    {
        let number = self.push(kind, inside)?;
        parts.push(number)?;
        Ok(())
    }

    /// The nodes, in their order.
    pub fn into_nodes(self) -> Vec<Numbered>
        ensures rows { map numbered_row result.items ≡ self }
        ensures few { length result.items ≤ no_number }
    {
        self.nodes
    }
}
