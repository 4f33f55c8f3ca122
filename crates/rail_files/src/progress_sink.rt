//! A sink of lines of which each takes the place of the one before.

ghost use Rattle.std.specs.Prelude.{◌≡◌, None};

use crate::bytes::write_whole;
use rail_outside::{Sink, SinkFault};
use std::io::Write;

/// One line up, to its beginning, and what stands there is wiped.
const OVER: &[u8] = b"\x1b[1A\r\x1b[K";

/// A sink over a writer, as standard error, of whose content nothing is known. On a terminal each line is written over
/// the one before, elsewhere below it. Each put that fails raises the count.
#[derive(Drop)]
pub struct ProgressSink<W: Write + Drop> {
    out: W,
    terminal: bool,
    /// Whether a line stands there.
    shown: bool,
    faults: u64,
}

impl<W: Write + Drop> ProgressSink<W> {
    /// A sink that has not failed yet, over a terminal or not.
    pub fn new(out: W, terminal: bool) -> Self
        ensures { ⟦<ProgressSink<W> as Sink>⟧.fault_count result ≡ 0 }
    {
        ProgressSink {
            out,
            terminal,
            shown: false,
            faults: 0,
        }
    }

    /// Writes a line, over the one before where there is one and this is a terminal.
    fn write_line(&mut self, line: &[u8]) -> bool
        ensures { self.new.faults ≡ self.old.faults }
    {
        if self.terminal && self.shown && write_whole(&mut self.out, OVER).is_err() {
            return false;
        }
        self.shown = true;
        write_whole(&mut self.out, line).is_ok()
    }
}

impl<W: Write + Drop> Sink for ProgressSink<W> {
    ghost written = { λ _. None };

    ghost puts = { λ _. None };

    ghost fault_count = { λ sink. sink.faults };

    fn put(&mut self, bytes: &[u8]) -> Result<(), SinkFault> {
        if !self.write_line(bytes) {
            self.faults = self.faults.saturating_add(1);
            return Err(SinkFault::Failed);
        }
        Ok(())
    }

    fn faults(&self) -> u64 {
        self.faults
    }
}
