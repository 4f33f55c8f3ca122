//! A sink over a writer.

ghost use Rattle.std.specs.Prelude.{◌≡◌, None};

use crate::bytes::write_whole;
use rail_outside::{Sink, SinkFault};
use std::io::Write;

/// A sink over a writer, as standard output, of whose content nothing is known. Each put that fails raises the count.
#[derive(Drop)]
pub struct OutSink<W: Write + Drop> {
    out: W,
    faults: u64,
}

impl<W: Write + Drop> OutSink<W> {
    /// A sink that has not failed yet.
    pub fn new(out: W) -> Self
        ensures { ⟦<OutSink<W> as Sink>⟧.fault_count result ≡ 0 }
    {
        OutSink { out, faults: 0 }
    }
}

impl<W: Write + Drop> Sink for OutSink<W> {
    ghost written = { λ _. None };

    ghost puts = { λ _. None };

    ghost fault_count = { λ sink. sink.faults };

    fn put(&mut self, bytes: &[u8]) -> Result<(), SinkFault> {
        if write_whole(&mut self.out, bytes).is_err() {
            self.faults = self.faults.saturating_add(1);
            return Err(SinkFault::Failed);
        }
        Ok(())
    }

    fn faults(&self) -> u64 {
        self.faults
    }
}
