//! A sink over a writer.

ghost use Rattle.std.specs.Prelude.{◌≡◌, OnOk, OnErr};
ghost use Rattle.std.specs.Io.KnownBytes.{Appends};
ghost use Rattle.page_io.specs.Streams.{AppendsFront};
ghost use Rattle.page_io.specs.RealSinkOf.{put_count};

use crate::sink::{PutFault, Sink};
use std::io::Write;
use std::marker::Model;

/// A sink over a writer, which is flushed at the end of each put. A put fails where a write or the flush answers
/// an error, or where the writer takes nothing of what is left. Each failure is counted, a u64 that stays at its
/// last value.
#[derive(Drop)]
pub struct RealSink<W> {
    writer: W,
    faults: u64,
}

impl<W> Model for RealSink<W> {
    ghost use Rattle.page_io.specs.RealSinkOf.{RealSinkOf};

    ghost Value = { RealSinkOf W };

    ghost view = { λ s. record { writer = s.writer; faults = s.faults } };
}

impl<W> RealSink<W> {
    /// The sink over this writer.
    pub fn new(writer: W) -> RealSink<W>
        ensures { result ≡ record { writer = writer; faults = 0 } }
    {
        RealSink { writer, faults: 0 }
    }
}

// Writes the piece and flushes the writer. A writer that takes nothing has failed.
fn write_whole<W: Write>(writer: &mut W, piece: &[u8]) -> Result<(), PutFault>
    ensures ok { OnOk result (Appends (W.contents writer.old) (W.contents writer.new) piece.now) }
    ensures fault { OnErr result (AppendsFront (W.contents writer.old)
        (W.contents writer.new) piece.now) }
{
    let mut done = 0;
    while done < piece.len() {
        match writer.write(&piece[done..]) {
            Ok(0) | Err(_) => return Err(PutFault::Failed),
            Ok(count) => done += count,
        }
    }
    match writer.flush() {
        Ok(()) => Ok(()),
        Err(_) => Err(PutFault::Failed),
    }
}

impl<W: Write> Sink for RealSink<W> {
    ghost use Rattle.std.specs.Prelude.{None};

    ghost seen = { λ s. record { taken = None; faults = s.faults } };

    fn put(&mut self, piece: &[u8]) -> Result<(), PutFault>
        ensures ok { OnOk result (Appends (W.contents self.old.writer)
            (W.contents self.new.writer) piece.now) }
        ensures fault { OnErr result (AppendsFront (W.contents self.old.writer)
            (W.contents self.new.writer) piece.now) }
        ensures count { self.new.faults ≡ put_count self.old.faults result }
    {
        let result = write_whole(&mut self.writer, piece);
        if result.is_err() {
            self.faults = self.faults.saturating_add(1);
        }
        result
    }
}
