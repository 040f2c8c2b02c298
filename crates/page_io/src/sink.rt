//! A place to put bytes.

ghost use Rattle.std.specs.Prelude.{OnOk, OnErr};
ghost use Rattle.page_io.specs.Faults.{CountsFaults};
ghost use Rattle.page_io.specs.Seen.{SinkSeen};
ghost use Rattle.page_io.specs.Taken.{Takes, TakesFront};

use thiserror::Error;

/// Why a piece was not taken whole.
#[derive(Clone, Copy, Debug, PartialEq, Eq, Error)]
pub enum PutFault {
    /// The put failed, after some front of the piece was taken.
    #[error("the output cannot be written")]
    Failed,
}

/// A sink, which takes bytes in the order in which they are put. It needs no memory for that.
pub trait Sink {
    /// The bytes taken, where they are told, and how many puts failed.
    ghost seen: { Self → SinkSeen };

    /// Appends a piece.
    ///
    /// # Errors
    ///
    /// `Failed` where the put failed, which the count shows; some front of the piece was appended.
    fn put(&mut self, piece: &[u8]) -> Result<(), PutFault>
        ensures ok { OnOk result (Takes (seen self.old).taken (seen self.new).taken piece.now) }
        ensures fault { OnErr result
            (TakesFront (seen self.old).taken (seen self.new).taken piece.now) }
        ensures counts { CountsFaults PutFault.Failed
            (seen self.old).faults (seen self.new).faults result };
}
