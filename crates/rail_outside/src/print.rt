//! Lines, each one put.

ghost use Rattle.std.specs.Prelude.{◌≡◌, ◌≤◌, Ok, Err};
ghost use Rattle.std.specs.List.{concat};
ghost use Rattle.rail_outside.specs.Growth.{Rose, grown, GrowsByPrefix, GrowsByLines};
ghost use Rattle.rail_outside.specs.Lines.{lines_of};

use crate::sink::{Sink, SinkFault};

/// Prints the lines in order, one put each.
///
/// Ends at the first put that fails: a prefix of the text is written, after `Memory` by whole lines.
pub fn put_lines<O: Sink>(lines: &[Vec<u8>], out: &mut O) -> Result<(), SinkFault>
    ensures all_put { result ≡ Ok tt → O.puts out.new ≡ grown (O.puts out.old) (lines_of lines.now) }
    ensures all_written { result ≡ Ok tt → O.written out.new ≡ grown (O.written out.old) (concat (lines_of lines.now)) }
    ensures puts { GrowsByPrefix (O.puts out.old) (O.puts out.new) (lines_of lines.now) }
    ensures failed { result ≡ Err SinkFault.Failed
        → GrowsByPrefix (O.written out.old) (O.written out.new) (concat (lines_of lines.now)) }
    ensures memory { result ≡ Err SinkFault.Memory
        → GrowsByLines (O.written out.old) (O.written out.new) (lines_of lines.now) }
    ensures cause { result ≡ Err SinkFault.Failed → Rose (O.fault_count out.old) (O.fault_count out.new) }
    ensures never_falls { O.fault_count out.old ≤ O.fault_count out.new }
{
    for line in lines {
        out.put(line.as_slice())?;
    }
    Ok(())
}
