//! A sink in memory, whose puts fail where they are told to.

ghost use Rattle.std.specs.Prelude.{◌≡◌, [], IfOk};
ghost use Rattle.page_io.specs.MemorySinkOf.{listed, put_answer, after_put};

use crate::sink::{PutFault, Sink};
use js_core::OutOfMemory;
use std::alloc::Global;
use std::marker::Model;

/// A sink in memory, with room for a number of bytes. Puts are numbered from 1, a u64 that stays at its
/// last value; a put fails exactly where its number is listed, or where the room left is smaller than the piece.
#[derive(Drop)]
pub struct MemorySink {
    bytes: Vec<u8>,
    room: u64,
    failing: Vec<(u64, u64)>,
    calls: u64,
    faults: u64,
}

impl Model for MemorySink {
    ghost use Rattle.std.specs.Prelude.{◌≤◌, vec_len, vec_capacity};
    ghost use Rattle.page_io.specs.MemorySinkOf.{MemorySinkOf};

    ghost Value = { MemorySinkOf };

    ghost view = { λ s. record {
      bytes = s.bytes.items;
      room = s.room;
      failing = s.failing.items;
      calls = s.calls;
      faults = s.faults;
    } };

    ghost invariant = { λ s. (vec_len s.bytes ≤ s.room) × (s.room ≤ vec_capacity s.bytes) };
}

impl MemorySink {
    /// An empty sink with this room, which is made at once. The puts whose numbers are listed in `failing` fail,
    /// and take as many bytes as stands beside the number, as far as the piece and the room go; of two pairs
    /// with one number the first counts.
    ///
    /// # Errors
    ///
    /// Want of memory for the room. A put needs none after that.
    pub fn new(
        alloc: Global,
        room: u64,
        failing: Vec<(u64, u64)>,
    ) -> Result<MemorySink, OutOfMemory>
        ensures { IfOk result (λ sink. sink ≡ record {
          bytes = [];
          room = room;
          failing = failing.items;
          calls = 0;
          faults = 0;
        }) }
    {
        Ok(MemorySink {
            bytes: Vec::with_capacity(alloc, room as usize)?,
            room,
            failing,
            calls: 0,
            faults: 0,
        })
    }

    /// The bytes taken so far.
    pub fn bytes(&self) -> &[u8]
        ensures { result.now ≡ self.now.bytes }
    {
        self.bytes.as_slice()
    }
}

// How many bytes the call takes at most, where it is to fail.
fn find_listed(failing: &[(u64, u64)], call: u64) -> Option<u64>
    ensures { result ≡ listed failing.now call }
{
    failing
        .iter()
        .find(|pair| pair.0 == call)
        .map(|pair| pair.1)
}

impl Sink for MemorySink {
    ghost use Rattle.std.specs.Prelude.{Some};

    ghost seen = { λ s. record { taken = Some s.bytes; faults = s.faults } };

    fn put(&mut self, piece: &[u8]) -> Result<(), PutFault>
        ensures answer { result ≡ put_answer self.old piece.now }
        ensures after { self.new ≡ after_put self.old piece.now }
    {
        self.calls = self.calls.saturating_add(1);
        let left = self.room as usize - self.bytes.len();
        let fitting = left.min(piece.len());
        let listed = find_listed(&self.failing, self.calls);
        let takes = match listed {
            Some(most) => fitting.min(most as usize),
            None => fitting,
        };
        self.bytes.extend_from_slice(&piece[..takes]).unwrap();
        if listed.is_some() || left < piece.len() {
            self.faults = self.faults.saturating_add(1);
            return Err(PutFault::Failed);
        }
        Ok(())
    }
}
