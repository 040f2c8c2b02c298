//! Files of the system.

ghost use Rattle.std.specs.Prelude.{◌≡◌, ◌<◌, ◌≤◌, length, IfSome, IfOk, IsErrOf};
ghost use Rattle.page_io.specs.Streams.{IsAllLeft};
ghost use Rattle.page_io.specs.RealFilesOf.{after_real_read};

use crate::files::{Files, ReadFault};
use std::alloc::Global;
use std::fs::File;
use std::io::Read;
use std::marker::Model;

/// Files of the system, which tell no content. A read fails where the file cannot be opened or a read of it
/// answers an error. Each failure is counted, a u64 that stays at its last value.
#[derive(Drop)]
pub struct RealFiles<'a, R = HostRuntime> {
    rt: &'a R,
    faults: u64,
    failed: Option<String>,
}

impl<'a, R> Model for RealFiles<'a, R> {
    ghost use Rattle.page_io.specs.RealFilesOf.{RealFilesOf};
    ghost use Rattle.std.specs.Option.{option_map};
    ghost use Rattle.std.specs.String.{string_bytes};

    ghost Value = { RealFilesOf };

    ghost view = { λ m. record { faults = m.faults; failed = option_map string_bytes m.failed } };
}

impl<'a, R> RealFiles<'a, R> {
    /// The files of this runtime, of which no read was made.
    pub fn new(rt: &'a R) -> RealFiles<'a, R>
        ensures { result ≡ record { faults = 0; failed = None } }
    {
        RealFiles {
            rt,
            faults: 0,
            failed: None,
        }
    }
}

// How many bytes are read at once.
const PIECE: usize = 4096;

// All that the reader gives, unless it is more than `limit` bytes: reading ends one byte past that.
fn read_up_to<R: Read>(alloc: Global, reader: &mut R, limit: u64) -> Result<Vec<u8>, ReadFault>
    ensures bytes { IfOk result (λ v. IsAllLeft (R.remaining reader.old) limit v.items) }
    ensures long { IsErrOf result ReadFault.TooLong
        → IfSome (R.remaining reader.old) (λ known. limit < length known) }
{
    let mut bytes = Vec::new(alloc);
    let mut piece = [0u8; PIECE];
    loop {
        let room = (limit - bytes.len() as u64).min(PIECE as u64 - 1) as usize + 1;
        let Ok(count) = reader.read(&mut piece[..room]) else {
            return Err(ReadFault::Failed);
        };
        if count == 0 {
            return Ok(bytes);
        }
        bytes.extend_from_slice(&piece[..count])?;
        if bytes.len() as u64 > limit {
            return Err(ReadFault::TooLong);
        }
    }
}

fn read_file<R: std::fs::Files>(
    rt: &R,
    alloc: Global,
    name: &str,
    limit: u64,
) -> Result<Vec<u8>, ReadFault>
    ensures { IfOk result (λ v. length v.items ≤ limit) }
{
    match File::open(rt, name) {
        Ok(mut file) => read_up_to(alloc, &mut file, limit),
        Err(_) => Err(ReadFault::Failed),
    }
}

impl<R: std::fs::Files> Files for RealFiles<'_, R> {
    ghost use Rattle.std.specs.Prelude.{None};

    ghost seen = { λ m. record { content = λ name. None; faults = m.faults; failed = m.failed } };

    fn read(&mut self, alloc: Global, name: &str, limit: u64) -> Result<Vec<u8>, ReadFault>
        ensures bytes { IfOk result (λ v. length v.items ≤ limit) }
        ensures after { self.new ≡ after_real_read self.old name.now result }
    {
        let kept = String::from_str(alloc, name)?;
        let result = read_file(self.rt, alloc, name, limit);
        if let Err(ReadFault::Failed) = &result {
            self.faults = self.faults.saturating_add(1);
            self.failed = Some(kept);
        }
        result
    }
}
