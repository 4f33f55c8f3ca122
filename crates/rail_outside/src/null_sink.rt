//! A sink that keeps nothing.

ghost use Rattle.std.specs.Prelude.{None};

use crate::sink::{Sink, SinkFault};

/// A sink that keeps nothing. A put never fails.
#[derive(Clone, Copy, Debug, PartialEq, Eq, Drop)]
pub struct NullSink;

impl Sink for NullSink {
    ghost written = { λ _. None };

    ghost puts = { λ _. None };

    ghost fault_count = { λ _. 0 };

    fn put(&mut self, _bytes: &[u8]) -> Result<(), SinkFault> {
        Ok(())
    }

    fn faults(&self) -> u64 {
        0
    }
}
