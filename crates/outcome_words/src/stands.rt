//! Where trains stand in a run, and for how long. An error is want of memory; then a part of what is appended may stand
//! there.

ghost use Rattle.std.specs.Prelude.{◌≡◌, IfOk, OnOk};
ghost use Rattle.rail_text.specs.Added.{AddsLines};
ghost use Rattle.outcome_words.specs.Stands.{stand_from, stand_of, stand_text, stands_in};

use crate::visits::put_time;
use crate::waiting::put_end;
use asked_words::dwell_of;
use rail_base::design::Design;
use rail_base::history::TrainHistory;
use rail_base::names::{node_name, train_name};
use rail_base::station::{NodeNo, TrainNo};
use std::alloc::{AllocError, Global};

/// A train stands at a visit.
#[derive(Clone, Copy, Debug)]
pub struct Stand {
    /// Where the visit is made.
    pub node: NodeNo,
    /// The tick at whose end the train is there.
    pub from: u64,
    /// The last tick in which it stands.
    pub until: u64,
    /// Whether it has stood long enough by then.
    pub is_done: bool,
}

/// The stand of a train that makes a visit at a node in a tick, up to a last tick.
fn stand_from(last: u64, dwell: Option<u64>, node: NodeNo, from: u64) -> Option<Stand>
    ensures { result ≡ stand_from last dwell (node, from) }
{
    let until = dwell.unwrap_or(last);
    if from < until {
        Some(Stand {
            node,
            from,
            until,
            is_done: dwell.is_some(),
        })
    } else {
        None
    }
}

/// The stand of a train at a visit at which it is to stand for so many ms, where there is one.
fn stand_of(last: u64, ms: u32, visit: Option<(NodeNo, u64)>, dwell: Option<u64>) -> Option<Stand>
    ensures { result ≡ stand_of last ms visit dwell }
{
    if ms == 0 {
        return None;
    }
    match visit {
        Some((node, from)) => stand_from(last, dwell, node, from),
        None => None,
    }
}

/// That a train stands.
fn stand_text(
    alloc: Global,
    design: &Design,
    train: TrainNo,
    stand: Stand,
) -> Result<Vec<u8>, AllocError>
    ensures { IfOk result (λ line. line.items ≡ stand_text design.now.station train stand) }
{
    let mut line = Vec::from_slice(alloc, train_name(design, train))?;
    line.extend_from_slice(b" stands at ")?;
    line.extend_from_slice(node_name(design, stand.node))?;
    line.extend_from_slice(b" from ")?;
    put_time(&mut line, design, stand.from)?;
    line.extend_from_slice(b" for ")?;
    put_time(&mut line, design, stand.until.saturating_sub(stand.from))?;
    put_end(&mut line, stand.is_done)?;
    line.push(b'\n')?;
    Ok(line)
}

/// Appends the stands of a train of which this has happened up to a last tick.
pub(crate) fn push_stands(
    alloc: Global,
    design: &Design,
    last: u64,
    train: TrainNo,
    history: &TrainHistory,
    lines: &mut Vec<Vec<u8>>,
) -> Result<(), AllocError>
    ensures { OnOk result (AddsLines lines.old lines.new (stands_in design.now.station last train history.now)) }
{
    let visits = history.visits.as_slice();
    let dwells = history.dwells.as_slice();
    for (index, (visit, dwell)) in visits.iter().zip(dwells).enumerate() {
        let ms = dwell_of(design, train, index + 1);
        if let Some(stand) = stand_of(last, ms, *visit, *dwell) {
            let line = stand_text(alloc, design, train, stand)?;
            lines.push(line)?;
        }
    }
    Ok(())
}
