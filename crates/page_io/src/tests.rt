// What no clause says and no program shows: what files of the system answer where a read gives no bytes, that a put flushes,
// and that the calls of a keeper succeed.

use crate::files::{Files, ReadFault};
use crate::keeper::Keeper;
use crate::memory_keeper::MemoryKeeper;
use crate::real_files::RealFiles;
use crate::real_sink::RealSink;
use crate::sink::{PutFault, Sink};
use std::io::{ErrorKind, Write};
use std::test::Fail;
use std::{fs, io};

// A writer that takes two bytes at a time, and can be flushed or not.
#[derive(Drop)]
struct Slow {
    flushes: bool,
}

impl Write for Slow {
    fn write(&mut self, buf: &[u8]) -> io::Result<usize> {
        Ok(buf.len().min(2))
    }

    fn flush(&mut self) -> io::Result<()> {
        if self.flushes {
            return Ok(());
        }
        Err(io::Error::from(ErrorKind::Other))
    }
}

#[test]
fn reads_files_and_flushes(rt: HostRuntime) -> Result<(), Fail> {
    let alloc = rt.alloc();
    fs::write(&rt, "page_io_test", "whole")?;
    let mut files = RealFiles::new(&rt);
    let bytes = files.read(alloc, "page_io_test", 5)?;
    assert_eq!(rt; bytes.as_slice(), b"whole".as_slice());
    assert!(rt;
        matches!(
            &files.read(alloc, "page_io_test", 4),
            Err(ReadFault::TooLong)
        )
    );
    assert!(rt;
        matches!(
            &files.read(alloc, "page_io_missing", 5),
            Err(ReadFault::Failed)
        )
    );
    fs::remove_file(&rt, "page_io_test")?;
    let mut sink = RealSink::new(Slow { flushes: true });
    assert_eq!(rt; sink.put(b"whole"), Ok(()));
    let mut sink = RealSink::new(Slow { flushes: false });
    assert_eq!(rt; sink.put(b"whole"), Err(PutFault::Failed));
    Ok(())
}

#[test]
fn keeps_rows(rt: HostRuntime) -> Result<(), Fail> {
    let alloc = rt.alloc();
    let mut keeper = MemoryKeeper::new(alloc, Vec::new(alloc));
    keeper.put(alloc, "a", 1, b"one")?;
    keeper.put(alloc, "a", 1, b"two")?;
    let names = keeper.list(alloc)?;
    assert_eq!(rt; names.len(), 1);
    assert!(rt; keeper.get(alloc, "a", 1)?.is_some());
    assert_eq!(rt; keeper.remove(alloc, "a", 1)?, true);
    assert!(rt; keeper.get(alloc, "a", 1)?.is_none());
    Ok(())
}
