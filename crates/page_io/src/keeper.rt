//! Rows of bytes that are kept by name and version.

ghost use Rattle.std.specs.Prelude.{◌≡◌, OnOk, OnErr, IfOk, IfSome, map};
ghost use Rattle.std.specs.Option.{option_map};
ghost use Rattle.std.specs.FinMap.{get, insert, remove, contains_key, entries};
ghost use Rattle.page_io.specs.Faults.{CountsFaults};
ghost use Rattle.page_io.specs.Seen.{KeeperSeen};
ghost use Rattle.page_io.specs.Table.{kept_name};

use js_core::{OutOfMemory, Units};
use std::alloc::{AllocError, AllocFailed, Global};
use thiserror::Error;

/// Why a keeper did not do what it was asked.
#[derive(Clone, Copy, Debug, PartialEq, Eq, Error)]
pub enum KeeperFault {
    /// The call failed.
    #[error("the keeper failed")]
    Failed,
    /// Memory ran out.
    #[error("out of memory")]
    OutOfMemory,
}

impl From<OutOfMemory> for KeeperFault {
    ghost use Rattle.std.specs.Prelude.{◌≡◌};
    ghost use Rattle.page_io.specs.declared.keeper.KeeperFault.TheVariants.{OutOfMemory};

    ghost from_gives = { λ _ fault. fault ≡ OutOfMemory };

    fn from(_error: OutOfMemory) -> KeeperFault {
        KeeperFault::OutOfMemory
    }
}

/// A row without its bytes.
#[derive(Drop)]
pub struct KeptName {
    /// The name, as UTF-16.
    pub name: Units,
    /// The version.
    pub version: u64,
    /// How many bytes are kept.
    pub size: u64,
}

/// A keeper of rows, each of which has a name, a version and bytes. After a fault the rows are as before.
pub trait Keeper {
    /// The rows, where they are told: from a name's bytes and a version to bytes; and how many calls failed.
    ghost seen: { Self → KeeperSeen };

    /// Sets the row of this name and version.
    ///
    /// # Errors
    ///
    /// `Failed` where the call failed, which the count shows; `OutOfMemory` where memory ran out.
    fn put(
        &mut self,
        alloc: Global,
        name: &str,
        version: u64,
        bytes: &[u8],
    ) -> Result<(), KeeperFault>
        ensures ok { OnOk result ((seen self.new).table
            ≡ option_map (λ t. insert t (name.now, version) bytes.now) (seen self.old).table) }
        ensures fault { OnErr result ((seen self.new).table ≡ (seen self.old).table) }
        ensures counts { CountsFaults KeeperFault.Failed
            (seen self.old).faults (seen self.new).faults result };

    /// The bytes of the row of this name and version, and `None` where there is no such row.
    ///
    /// # Errors
    ///
    /// `Failed` where the call failed, which the count shows; `OutOfMemory` where memory ran out.
    fn get(
        &mut self,
        alloc: Global,
        name: &str,
        version: u64,
    ) -> Result<Option<Vec<u8>>, KeeperFault>
        ensures ok { IfOk result (λ found. IfSome (seen self.old).table
            (λ t. option_map (λ v. v.items) found ≡ get t (name.now, version))) }
        ensures same { (seen self.new).table ≡ (seen self.old).table }
        ensures counts { CountsFaults KeeperFault.Failed
            (seen self.old).faults (seen self.new).faults result };

    /// The names of all rows, by the bytes of the name, then by the version.
    ///
    /// # Errors
    ///
    /// `Failed` where the call failed, which the count shows; `OutOfMemory` where memory ran out.
    fn list(&mut self, alloc: Global) -> Result<Vec<KeptName>, KeeperFault>
        ensures ok { IfOk result (λ names. IfSome (seen self.old).table
            (λ t. names.items ≡ map kept_name (entries t))) }
        ensures same { (seen self.new).table ≡ (seen self.old).table }
        ensures counts { CountsFaults KeeperFault.Failed
            (seen self.old).faults (seen self.new).faults result };

    /// Removes the row of this name and version, and says whether there was one.
    ///
    /// # Errors
    ///
    /// `Failed` where the call failed, which the count shows; `OutOfMemory` where memory ran out.
    fn remove(&mut self, alloc: Global, name: &str, version: u64) -> Result<bool, KeeperFault>
        ensures ok { IfOk result (λ was. IfSome (seen self.old).table
            (λ t. was ≡ contains_key t (name.now, version))) }
        ensures removed { OnOk result ((seen self.new).table
            ≡ option_map (λ t. remove t (name.now, version)) (seen self.old).table) }
        ensures fault { OnErr result ((seen self.new).table ≡ (seen self.old).table) }
        ensures counts { CountsFaults KeeperFault.Failed
            (seen self.old).faults (seen self.new).faults result };
}
