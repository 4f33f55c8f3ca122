//! Where printed text goes.

ghost use Rattle.std.specs.Prelude.{◌≡◌, ◌≤◌, ℕ, List, Option};
ghost use Rattle.rail_outside.specs.Growth.{grown};
ghost use Rattle.rail_outside.specs.Putting.{PutHasCause, PutLeaves, put_pieces};
ghost use Rattle.rail_outside.specs.declared.sink.SinkFault.TheVariants.{Memory};

use std::alloc::AllocError;
use thiserror::Error;

/// Why a piece was not put.
#[derive(Clone, Copy, Debug, PartialEq, Eq, Error)]
pub enum SinkFault {
    /// The sink failed, and its count of faults has risen.
    #[error("the text could not be written")]
    Failed,
    /// Want of memory; nothing has been written.
    #[error("want of memory")]
    Memory,
}

impl From<AllocError> for SinkFault {
    ghost from_gives = { λ _ fault. fault ≡ Memory };

    fn from(_error: AllocError) -> SinkFault {
        SinkFault::Memory
    }
}

/// A place that takes bytes in order.
pub trait Sink {
    /// The bytes so far, where they are known.
    ghost written: { Self → Option (List ℕ) };

    /// The pieces of the calls so far in order, where they are known.
    ghost puts: { Self → Option (List (List ℕ)) };

    /// How often the sink has failed.
    ghost fault_count: { Self → ℕ };

    /// Appends a piece.
    ///
    /// `Failed` may have appended a prefix of it. `Memory` has appended nothing.
    fn put(&mut self, bytes: &[u8]) -> Result<(), SinkFault>
        ensures leaves { PutLeaves result (written self.old) (written self.new) bytes.now }
        ensures cause { PutHasCause result (fault_count self.old) (fault_count self.new) }
        ensures never_falls { fault_count self.old ≤ fault_count self.new }
        ensures pieces { puts self.new ≡ grown (puts self.old) (put_pieces result bytes.now) };

    /// How often the sink has failed, up to the greatest `u64`.
    fn faults(&self) -> u64
        ensures { result ≡ fault_count self.now };
}
