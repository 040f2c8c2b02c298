//! Sessions that are kept: what `park`, `fetch`, `parked` and `drop` do.

ghost use Rattle.std.specs.Prelude.{◌≡◌, ◌≤◌, IfOk, IfErr, IfSome, OnOk, OnErr};
ghost use Rattle.parking.specs.Keeping.{IsKept, IsNext, status_of_fault};
ghost use Rattle.parking.specs.Rows.{greatest as greatest_of};
ghost use Rattle.parking.specs.Works.{dropping, fetching, listing, parking};
ghost use Rattle.outcomes.specs.Seen.{seen_between, FilesLast};
ghost use Rattle.outcomes.specs.Work.{Gives, GivesOfRows};

use crate::row_lines::{listed_text, row_line};
use js_core::{OutOfMemory, Units};
use migrate::{law_saved_pages_move, saved_text};
use outcomes::Status;
use page_io::{Files, Keeper, KeeperFault, KeptName};
use read_files::read_session;
use std::alloc::Global;

/// The last version that a session may have.
pub const LAST_VERSION: u64 = 1_000_000_000;

// How a fault of the keeper ends a command.
fn status_of(fault: KeeperFault) -> Status
    ensures { result ≡ status_of_fault fault }
{
    match fault {
        KeeperFault::Failed => Status::KeeperFault,
        KeeperFault::OutOfMemory => Status::OutOfMemory,
    }
}

// The greatest version of the rows of a name, and 0 where there is none.
fn greatest(rows: &[KeptName], name: &Units) -> u64
    ensures { result ≡ greatest_of name.now rows.now }
{
    let mut version = 0;
    for row in rows {
        if row.name == *name {
            version = version.max(row.version);
        }
    }
    version
}

// The next version of a name, where one is left.
fn next_version<K: Keeper>(alloc: Global, name: &str, keeper: &mut K) -> Result<u64, Status>
    ensures { IsNext name.now (K.seen keeper.old) (K.seen keeper.new) result }
{
    let rows = match keeper.list(alloc) {
        Ok(rows) => rows,
        Err(fault) => return Err(status_of(fault)),
    };
    let Ok(units) = Units::from_utf8(alloc, name) else {
        return Err(Status::OutOfMemory);
    };
    let version = greatest(&rows, &units);
    if version >= LAST_VERSION {
        return Err(Status::VersionsUsed);
    }
    Ok(version + 1)
}

// Keeps the bytes as the next version of a name, and gives the line that says so, which is made before that.
fn keep<K: Keeper>(
    alloc: Global,
    name: &str,
    bytes: &[u8],
    keeper: &mut K,
) -> Result<Vec<u8>, Status>
    ensures { IsKept name.now bytes.now (K.seen keeper.old) (K.seen keeper.new) result }
{
    let version = match next_version(alloc, name, keeper) {
        Ok(version) => version,
        Err(status) => return Err(status),
    };
    let Ok(line) = row_line(alloc, b"parked ", name, version) else {
        return Err(Status::OutOfMemory);
    };
    match keeper.put(alloc, name, version, bytes) {
        Ok(()) => Ok(line),
        Err(fault) => Err(status_of(fault)),
    }
}

/// Keeps the page of this name as it is after the events, as the next version of the session's name. The order is that of
/// `save`, up to writing; then the next version is found, and the row is put.
pub fn park<F: Files, K: Keeper>(
    alloc: Global,
    page: &str,
    events: &str,
    name: &str,
    files: &mut F,
    keeper: &mut K,
) -> Result<Vec<u8>, Status>
    ensures gives { Gives (parking page.now events.now name.now) result
        (seen_between (F.seen files.old) (F.seen files.new)
        (K.seen keeper.old) (K.seen keeper.new)) }
    ensures lasts { FilesLast (F.seen files.old) (F.seen files.new) }
    ensures calls { (K.seen keeper.old).faults ≤ (K.seen keeper.new).faults }
{
    law_saved_pages_move();
    let (page, list) = match read_session(alloc, page, events, files) {
        Ok(read) => read,
        Err(status) => return Err(status),
    };
    let text = match saved_text(alloc, page, &list) {
        Ok(text) => text,
        Err(cause) => return Err(cause.status()),
    };
    keep(alloc, name, &text, keeper)
}

/// The bytes that are kept under this name and version.
pub fn fetch<K: Keeper>(
    alloc: Global,
    name: &str,
    version: u64,
    keeper: &mut K,
) -> Result<Vec<u8>, Status>
    ensures gives { GivesOfRows (fetching name.now version) result
        (K.seen keeper.old) (K.seen keeper.new) }
    ensures calls { (K.seen keeper.old).faults ≤ (K.seen keeper.new).faults }
{
    match keeper.get(alloc, name, version) {
        Ok(Some(bytes)) => Ok(bytes),
        Ok(None) => Err(Status::NoSession),
        Err(fault) => Err(status_of(fault)),
    }
}

/// The list of what is kept, without the names that have a dot.
pub fn parked<K: Keeper>(alloc: Global, keeper: &mut K) -> Result<Vec<u8>, Status>
    ensures gives { GivesOfRows listing result (K.seen keeper.old) (K.seen keeper.new) }
    ensures calls { (K.seen keeper.old).faults ≤ (K.seen keeper.new).faults }
{
    let rows = match keeper.list(alloc) {
        Ok(rows) => rows,
        Err(fault) => return Err(status_of(fault)),
    };
    match listed_text(alloc, &rows) {
        Ok(text) => Ok(text),
        Err(OutOfMemory) => Err(Status::OutOfMemory),
    }
}

/// Drops what is kept under this name and version, and gives the line that says so, which is made before that.
pub fn drop_row<K: Keeper>(
    alloc: Global,
    name: &str,
    version: u64,
    keeper: &mut K,
) -> Result<Vec<u8>, Status>
    ensures gives { GivesOfRows (dropping name.now version) result
        (K.seen keeper.old) (K.seen keeper.new) }
    ensures calls { (K.seen keeper.old).faults ≤ (K.seen keeper.new).faults }
{
    let Ok(line) = row_line(alloc, b"dropped ", name, version) else {
        return Err(Status::OutOfMemory);
    };
    match keeper.remove(alloc, name, version) {
        Ok(true) => Ok(line),
        Ok(false) => Err(Status::NoSession),
        Err(fault) => Err(status_of(fault)),
    }
}
