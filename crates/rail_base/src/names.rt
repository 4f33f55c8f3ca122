//! Entries and names by number, which are empty where a number names nothing.

ghost use Rattle.std.specs.Prelude.{◌≡◌, unwrap_or};
ghost use Rattle.std.specs.Option.{option_copied};
ghost use Rattle.rail_base.specs.Names.{node_name, section_name, signal_name, train_name};
ghost use Rattle.rail_base.specs.Numbering.{entry};

use crate::design::Design;
use crate::station::{NodeNo, SectionNo, SignalNo, Station, TrainNo};

/// The entry of a number, counted from 1.
pub fn entry<T>(entries: &[T], number: usize) -> Option<&T>
    ensures { (other : T) → unwrap_or (option_copied result) other ≡ entry other entries.now number }
{
    if number == 0 {
        None
    } else {
        entries.get(number - 1)
    }
}

/// The name of the train of a number, counted from 1.
pub fn name_of_train(station: &Station, number: usize) -> &[u8]
    ensures { result.now ≡ train_name station.now (record { 0 = number }) }
{
    match entry(station.trains.as_slice(), number) {
        Some(train) => train.name.as_bytes(),
        None => &[],
    }
}

/// The name of a train.
pub fn train_name(design: &Design, train: TrainNo) -> &[u8]
    ensures { result.now ≡ train_name design.now.station train }
{
    name_of_train(&design.station, train.0 as usize)
}

/// The name of a node.
pub fn node_name(design: &Design, node: NodeNo) -> &[u8]
    ensures { result.now ≡ node_name design.now.station node }
{
    match entry(design.station.nodes.as_slice(), node.0 as usize) {
        Some(node) => node.name.as_bytes(),
        None => &[],
    }
}

/// The name of a section.
pub fn section_name(design: &Design, section: SectionNo) -> &[u8]
    ensures { result.now ≡ section_name design.now.station section }
{
    match entry(design.station.sections.as_slice(), section.0 as usize) {
        Some(name) => name.as_bytes(),
        None => &[],
    }
}

/// The name of a signal.
pub fn signal_name(design: &Design, signal: SignalNo) -> &[u8]
    ensures { result.now ≡ signal_name design.now.station signal }
{
    match entry(design.station.signals.as_slice(), signal.0 as usize) {
        Some(signal) => signal.name.as_bytes(),
        None => &[],
    }
}
