//! A keeper in memory, whose calls fail where they are told to.

ghost use Rattle.std.specs.Prelude.{◌≡◌, ◌↔◌, OnOk, OnErr, IfOk, IsErrOf, IsTrue, map, if◌then◌else◌};
ghost use Rattle.std.specs.Option.{option_map};
ghost use Rattle.std.specs.FinMap.{empty, get, insert, remove, contains_key, entries};
ghost use Rattle.page_io.specs.Table.{kept_name};
ghost use Rattle.page_io.specs.MemoryKeeperOf.{table_of, is_listed, after_call};

use crate::keeper::{Keeper, KeeperFault, KeptName};
use js_core::{OutOfMemory, Units};
use std::alloc::Global;
use std::collections::BTreeMap;
use std::marker::Model;

type Rows = BTreeMap<(String, u64), Vec<u8>>;

/// A keeper in memory. Calls are numbered from 1, a u64 that stays at its last value; a call fails exactly
/// where its number is listed.
#[derive(Drop)]
pub struct MemoryKeeper {
    rows: Rows,
    failing: Vec<u64>,
    calls: u64,
    faults: u64,
}

impl Model for MemoryKeeper {
    ghost use Rattle.page_io.specs.MemoryKeeperOf.{MemoryKeeperOf, memory_keeper_code, table_of};

    ghost Value = { MemoryKeeperOf };

    ghost coded = { memory_keeper_code };

    ghost view = { λ k. record {
      table = table_of k.rows.entries;
      failing = k.failing.items;
      calls = k.calls;
      faults = k.faults;
    } };
}

impl MemoryKeeper {
    /// A keeper without rows, to which no call was made. The calls whose numbers are listed in `failing` fail.
    pub fn new(alloc: Global, failing: Vec<u64>) -> MemoryKeeper
        ensures { result ≡ record {
          table = empty;
          failing = failing.items;
          calls = 0;
          faults =
              0;
        } }
    {
        MemoryKeeper {
            rows: BTreeMap::new(alloc),
            failing,
            calls: 0,
            faults: 0,
        }
    }

    // Counts a call, which fails where it is listed.
    fn begin(&mut self) -> Result<(), KeeperFault>
        ensures failing { result ≡ (if is_listed self.old then Err KeeperFault.Failed else Ok tt) }
        ensures after { self.new ≡ after_call self.old self.old.table result }
    {
        self.calls = self.calls.saturating_add(1);
        if self.failing.contains(&self.calls) {
            self.faults = self.faults.saturating_add(1);
            return Err(KeeperFault::Failed);
        }
        Ok(())
    }
}

fn put_row(
    rows: &mut Rows,
    alloc: Global,
    name: &str,
    version: u64,
    bytes: &[u8],
) -> Result<(), OutOfMemory>
    ensures ok { OnOk result (table_of rows.new.entries
        ≡ insert (table_of rows.old.entries) (name.now, version) bytes.now) }
    ensures fault { OnErr result (rows.new.entries ≡ rows.old.entries) }
{
    let key = (String::from_str(alloc, name)?, version);
    let _ = rows.insert(key, Vec::from_slice(alloc, bytes)?)?;
    Ok(())
}

fn get_row(
    rows: &Rows,
    alloc: Global,
    name: &str,
    version: u64,
) -> Result<Option<Vec<u8>>, OutOfMemory>
    ensures { IfOk result (λ found. option_map (λ v. v.items) found
        ≡ get (table_of rows.now.entries) (name.now, version)) }
{
    let key = (String::from_str(alloc, name)?, version);
    match rows.get(&key) {
        None => Ok(None),
        Some(bytes) => Ok(Some(Vec::from_slice(alloc, bytes.as_slice())?)),
    }
}

fn list_rows(rows: &Rows, alloc: Global) -> Result<Vec<KeptName>, OutOfMemory>
    ensures { IfOk result (λ names. names.items
        ≡ map kept_name (entries (table_of rows.now.entries))) }
{
    let mut names = Vec::new(alloc);
    for (key, bytes) in rows {
        names.push(KeptName {
            name: Units::from_utf8(alloc, key.0.as_str())?,
            version: key.1,
            size: bytes.len() as u64,
        })?;
    }
    Ok(names)
}

fn remove_row(rows: &mut Rows, alloc: Global, name: &str, version: u64) -> Result<bool, OutOfMemory>
    ensures ok { IfOk result (λ was. was ≡ contains_key (table_of rows.old.entries)
        (name.now, version)) }
    ensures removed { OnOk result (table_of rows.new.entries
        ≡ remove (table_of rows.old.entries) (name.now, version)) }
    ensures fault { OnErr result (rows.new.entries ≡ rows.old.entries) }
{
    let key = (String::from_str(alloc, name)?, version);
    Ok(rows.remove(&key).is_some())
}

impl Keeper for MemoryKeeper {
    ghost use Rattle.std.specs.Prelude.{Some};

    ghost seen = { λ k. record { table = Some k.table; faults = k.faults } };

    fn put(
        &mut self,
        alloc: Global,
        name: &str,
        version: u64,
        bytes: &[u8],
    ) -> Result<(), KeeperFault>
        ensures failing { IsErrOf result KeeperFault.Failed ↔ IsTrue (is_listed self.old) }
        ensures after { self.new
            ≡ after_call self.old (insert self.old.table (name.now, version) bytes.now) result }
    {
        self.begin()?;
        Ok(put_row(&mut self.rows, alloc, name, version, bytes)?)
    }

    fn get(
        &mut self,
        alloc: Global,
        name: &str,
        version: u64,
    ) -> Result<Option<Vec<u8>>, KeeperFault>
        ensures failing { IsErrOf result KeeperFault.Failed ↔ IsTrue (is_listed self.old) }
        ensures ok { IfOk result (λ found. option_map (λ v. v.items) found
            ≡ get self.old.table (name.now, version)) }
        ensures after { self.new ≡ after_call self.old self.old.table result }
    {
        self.begin()?;
        Ok(get_row(&self.rows, alloc, name, version)?)
    }

    fn list(&mut self, alloc: Global) -> Result<Vec<KeptName>, KeeperFault>
        ensures failing { IsErrOf result KeeperFault.Failed ↔ IsTrue (is_listed self.old) }
        ensures ok { IfOk result (λ names. names.items ≡ map kept_name (entries self.old.table)) }
        ensures after { self.new ≡ after_call self.old self.old.table result }
    {
        self.begin()?;
        Ok(list_rows(&self.rows, alloc)?)
    }

    fn remove(&mut self, alloc: Global, name: &str, version: u64) -> Result<bool, KeeperFault>
        ensures failing { IsErrOf result KeeperFault.Failed ↔ IsTrue (is_listed self.old) }
        ensures ok { IfOk result (λ was. was ≡ contains_key self.old.table (name.now, version)) }
        ensures after { self.new
            ≡ after_call self.old (remove self.old.table (name.now, version)) result }
    {
        self.begin()?;
        Ok(remove_row(&mut self.rows, alloc, name, version)?)
    }
}
