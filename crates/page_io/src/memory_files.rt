//! Files in memory, whose reads fail where they are told to.

ghost use Rattle.std.specs.Prelude.{◌≡◌};
ghost use Rattle.std.specs.Option.{option_map};
ghost use Rattle.std.specs.String.{string_bytes};
ghost use Rattle.page_io.specs.Faults.{counted};
ghost use Rattle.page_io.specs.MemoryFilesOf.{named, content_of, answer_of, Answers, after_read};

use crate::files::{Files, ReadFault};
use std::alloc::Global;
use std::marker::Model;

/// Files in memory. Of two files with one name the first counts. Reads are numbered from 1, a u64 that
/// stays at its last value; a read fails exactly where its number is listed, or where no file has the name.
#[derive(Drop)]
pub struct MemoryFiles {
    files: Vec<(String, Vec<u8>)>,
    failing: Vec<u64>,
    calls: u64,
    faults: u64,
    failed: Option<String>,
}

impl Model for MemoryFiles {
    ghost use Rattle.page_io.specs.MemoryFilesOf.{MemoryFilesOf, named};
    ghost use Rattle.std.specs.Option.{option_map};
    ghost use Rattle.std.specs.String.{string_bytes};

    ghost Value = { MemoryFilesOf };

    ghost view = { λ m. record {
      files = named m.files.items;
      failing = m.failing.items;
      calls = m.calls;
      faults = m.faults;
      failed = option_map string_bytes m.failed;
    } };
}

impl MemoryFiles {
    /// These files, of which no read was made. The reads whose numbers are listed in `failing` fail.
    pub fn new(files: Vec<(String, Vec<u8>)>, failing: Vec<u64>) -> MemoryFiles
        ensures { result ≡ record {
          files = named files.items;
          failing = failing.items;
          calls = 0;
          faults = 0;
          failed = None;
        } }
    {
        MemoryFiles {
            files,
            failing,
            calls: 0,
            faults: 0,
            failed: None,
        }
    }

    // Counts a failure and keeps its name.
    fn fail(&mut self, name: String) -> ReadFault
        ensures fault { result ≡ ReadFault.Failed }
        ensures after { self.new ≡ record self.old {
          faults = counted self.old.faults;
          failed = Some (string_bytes name);
        } }
    {
        self.faults = self.faults.saturating_add(1);
        self.failed = Some(name);
        ReadFault::Failed
    }
}

// The content of the first file of this name.
fn find<'a>(files: &'a [(String, Vec<u8>)], name: &str) -> Option<&'a [u8]>
    ensures { option_map (λ bytes. bytes.now) result ≡ content_of (named files.now) name.now }
{
    for file in files {
        if file.0.as_str() == name {
            return Some(file.1.as_slice());
        }
    }
    None
}

impl Files for MemoryFiles {
    ghost use Rattle.std.specs.Prelude.{Some};
    ghost use Rattle.page_io.specs.MemoryFilesOf.{content_of};

    ghost seen = { λ m. record {
      content = λ name. Some (content_of m.files name);
      faults = m.faults;
      failed = m.failed;
    } };

    fn read(&mut self, alloc: Global, name: &str, limit: u64) -> Result<Vec<u8>, ReadFault>
        ensures answer { Answers (answer_of self.old name.now limit) result }
        ensures after { self.new ≡ after_read self.old name.now result }
    {
        self.calls = self.calls.saturating_add(1);
        let kept = String::from_str(alloc, name)?;
        if self.failing.contains(&self.calls) {
            return Err(self.fail(kept));
        }
        match find(&self.files, name) {
            None => Err(self.fail(kept)),
            Some(content) => {
                if content.len() as u64 > limit {
                    return Err(ReadFault::TooLong);
                }
                Ok(Vec::from_slice(alloc, content)?)
            }
        }
    }
}
