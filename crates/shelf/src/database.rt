//! The table of rows in a database file, and the statements on it.

ghost use Rattle.std.specs.Prelude.{◌≡◌, ◌↔◌};

use js_core::Units;
use page_io::{KeeperFault, KeptName};
use sqlite::{Connection, Error, ErrorCode, File, FileStore, Row, params};
use std::alloc::Global;

/// A database file that is open.
pub type Database = Connection<FileStore<File>>;

const TABLE: &str = "CREATE TABLE IF NOT EXISTS kept(name TEXT NOT NULL, \
    version INTEGER NOT NULL, size INTEGER NOT NULL, bytes BLOB NOT NULL, \
    PRIMARY KEY(name, version)) STRICT";

const PUT: &str = "INSERT OR REPLACE INTO kept(name, version, size, bytes) VALUES (?1, ?2, ?3, ?4)";

const GET: &str = "SELECT bytes FROM kept WHERE name = ?1 AND version = ?2";

const LIST: &str = "SELECT name, version, size FROM kept ORDER BY name, version";

const REMOVE: &str = "DELETE FROM kept WHERE name = ?1 AND version = ?2";

// Each refusal but want of memory is a failure.
fn fault_of(error: Error) -> KeeperFault
    ensures { (result ≡ KeeperFault.OutOfMemory)
        ↔ (error ≡ Error.SqliteFailure ErrorCode.OutOfMemory) }
{
    match error {
        Error::SqliteFailure(ErrorCode::OutOfMemory) => KeeperFault::OutOfMemory,
        _ => KeeperFault::Failed,
    }
}

// A version as the table has it: one that is no integer of SQL cannot be kept.
fn stored(version: u64) -> Result<i64, KeeperFault> {
    i64::try_from(version).map_err(|_| KeeperFault::Failed)
}

/// Opens the file at the path, or makes it, with the table.
pub fn open(rt: &HostRuntime, path: &str) -> Result<Database, KeeperFault> {
    let mut database = Connection::open(rt, path).map_err(fault_of)?;
    database.execute(TABLE, &[]).map_err(fault_of)?;
    Ok(database)
}

/// Sets the row of this name and version.
pub fn put(
    database: &mut Database,
    name: &str,
    version: u64,
    bytes: &[u8],
) -> Result<(), KeeperFault> {
    let version = stored(version)?;
    let size = bytes.len() as i64;
    database
        .execute(PUT, params![name, version, size, bytes])
        .map_err(fault_of)?;
    Ok(())
}

/// The bytes of the row of this name and version.
pub fn get(
    database: &mut Database,
    name: &str,
    version: u64,
) -> Result<Option<Vec<u8>>, KeeperFault> {
    let version = stored(version)?;
    match database.query_row(GET, params![name, version]) {
        Ok(row) => bytes_of(&row).map(Some),
        Err(Error::QueryReturnedNoRows) => Ok(None),
        Err(error) => Err(fault_of(error)),
    }
}

// The bytes in the first column.
fn bytes_of(row: &Row) -> Result<Vec<u8>, KeeperFault> {
    row.get(0).map_err(fault_of)
}

/// The names of all rows, by the bytes of the name, then by the version.
pub fn list(database: &mut Database, alloc: Global) -> Result<Vec<KeptName>, KeeperFault> {
    let rows = database.query_all(LIST, &[]).map_err(fault_of)?;
    names_of(alloc, &rows)
}

// The rows of a list.
fn names_of(alloc: Global, rows: &[Row]) -> Result<Vec<KeptName>, KeeperFault> {
    let mut names = Vec::new(alloc);
    for row in rows {
        names
            .push(kept_name(alloc, row)?)
            .map_err(|_| KeeperFault::OutOfMemory)?;
    }
    Ok(names)
}

// A row of a list.
fn kept_name(alloc: Global, row: &Row) -> Result<KeptName, KeeperFault> {
    let name: String = row.get(0).map_err(fault_of)?;
    Ok(KeptName {
        name: Units::from_utf8(alloc, &name)?,
        version: row.get(1).map_err(fault_of)?,
        size: row.get(2).map_err(fault_of)?,
    })
}

/// Removes the row of this name and version, and says whether there was one.
pub fn remove(database: &mut Database, name: &str, version: u64) -> Result<bool, KeeperFault> {
    let version = stored(version)?;
    let removed = database
        .execute(REMOVE, params![name, version])
        .map_err(fault_of)?;
    Ok(removed > 0)
}
