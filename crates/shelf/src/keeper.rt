//! A keeper over a database file.

ghost use Rattle.std.specs.Prelude.{◌≡◌};
ghost use Rattle.shelf.specs.SqliteKeeperOf.{count_after};

use crate::database;
use crate::database::Database;
use page_io::{Keeper, KeeperFault, KeptName};
use std::alloc::Global;
use std::marker::Model;

// The file at a path, which is opened at the first call.
struct Shelf<'a> {
    rt: &'a HostRuntime,
    path: String,
    database: Option<Database>,
}

impl Shelf<'_> {
    // The open file.
    fn opened(&mut self) -> Result<&mut Database, KeeperFault> {
        let database = match self.database.take() {
            Some(database) => database,
            None => database::open(self.rt, &self.path)?,
        };
        Ok(self.database.insert(database))
    }

    fn put(&mut self, name: &str, version: u64, bytes: &[u8]) -> Result<(), KeeperFault> {
        database::put(self.opened()?, name, version, bytes)
    }

    fn get(&mut self, name: &str, version: u64) -> Result<Option<Vec<u8>>, KeeperFault> {
        database::get(self.opened()?, name, version)
    }

    fn list(&mut self, alloc: Global) -> Result<Vec<KeptName>, KeeperFault> {
        database::list(self.opened()?, alloc)
    }

    fn remove(&mut self, name: &str, version: u64) -> Result<bool, KeeperFault> {
        database::remove(self.opened()?, name, version)
    }
}

impl Drop for Shelf<'_> {
    // What the log beside the file holds is copied into the file. Where that fails it stays in the log, and the next
    // open finds it.
    fn drop(self) {
        let Shelf {
            rt: _,
            path: _,
            database,
        } = self;
        if let Some(database) = database {
            let _ = database.close();
        }
    }
}

/// A keeper over a database file, which it opens at its first call, or makes. It tells no rows. Each refusal but want of
/// memory is counted, a u64 that stays at its last value, and so is a file that cannot be opened.
#[derive(Drop)]
pub struct SqliteKeeper<'a> {
    shelf: Shelf<'a>,
    faults: u64,
}

impl<'a> Model for SqliteKeeper<'a> {
    ghost use Rattle.shelf.specs.SqliteKeeperOf.{SqliteKeeperOf};

    ghost Value = { SqliteKeeperOf };

    ghost view = { λ k. record { faults = k.faults } };
}

// The count of failed calls after a call with this result.
fn count<T>(faults: u64, answer: &Result<T, KeeperFault>) -> u64
    ensures { result ≡ count_after faults answer.now }
{
    match answer {
        Err(KeeperFault::Failed) => faults.saturating_add(1),
        _ => faults,
    }
}

impl<'a> SqliteKeeper<'a> {
    /// The keeper over the file at this path, to which no call was made.
    pub fn new(rt: &'a HostRuntime, path: String) -> SqliteKeeper<'a>
        ensures { result ≡ record { faults = 0 } }
    {
        SqliteKeeper {
            shelf: Shelf {
                rt,
                path,
                database: None,
            },
            faults: 0,
        }
    }
}

impl Keeper for SqliteKeeper<'_> {
    ghost use Rattle.std.specs.Prelude.{None};

    ghost seen = { λ k. record { table = None; faults = k.faults } };

    fn put(
        &mut self,
        _alloc: Global,
        name: &str,
        version: u64,
        bytes: &[u8],
    ) -> Result<(), KeeperFault>
        ensures after { self.new ≡ record { faults = count_after self.old.faults result } }
    {
        let result = self.shelf.put(name, version, bytes);
        self.faults = count(self.faults, &result);
        result
    }

    fn get(
        &mut self,
        _alloc: Global,
        name: &str,
        version: u64,
    ) -> Result<Option<Vec<u8>>, KeeperFault>
        ensures after { self.new ≡ record { faults = count_after self.old.faults result } }
    {
        let result = self.shelf.get(name, version);
        self.faults = count(self.faults, &result);
        result
    }

    fn list(&mut self, alloc: Global) -> Result<Vec<KeptName>, KeeperFault>
        ensures after { self.new ≡ record { faults = count_after self.old.faults result } }
    {
        let result = self.shelf.list(alloc);
        self.faults = count(self.faults, &result);
        result
    }

    fn remove(&mut self, _alloc: Global, name: &str, version: u64) -> Result<bool, KeeperFault>
        ensures after { self.new ≡ record { faults = count_after self.old.faults result } }
    {
        let result = self.shelf.remove(name, version);
        self.faults = count(self.faults, &result);
        result
    }
}
