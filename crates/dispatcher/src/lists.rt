//! Lists by number.

ghost use Rattle.std.specs.Prelude.{◌≡◌, ℕ, ◌≤◌, [], IfOk, OnOk, length};
ghost use Rattle.rail_base.specs.Numbering.{entry};
ghost use Rattle.dispatcher.specs.Turned.{of_train, with_item, with_train};

use rail_base::list::List;
use rail_base::station::TrainNo;
use rail_course::Wait;
use std::alloc::{AllocError, Global};

/// So many empty lists.
pub(crate) fn empty_lists<T: Drop>(alloc: Global, count: usize) -> Result<Vec<List<T>>, AllocError>
    ensures count { IfOk result (λ lists. length lists.items ≡ count) }
    ensures empty { IfOk result (λ lists. (n : ℕ) → entry [] lists.items n ≡ []) }
{
    let mut lists = Vec::new(alloc);
    for _number in 0..count {
        lists.push(List::new(alloc))?;
    }
    Ok(lists)
}

/// Leaves in the list of a number, counted from 1, the waits for one train alone.
pub(crate) fn keep(
    lists: &mut Vec<List<Wait>>,
    alloc: Global,
    number: u32,
    train: TrainNo,
) -> Result<(), AllocError>
    requires at_least_one { 1 ≤ number }
    requires within { number ≤ length lists.old.items }
    ensures same_length { length lists.new.items ≡ length lists.old.items }
    ensures kept { OnOk result ((n : ℕ) → entry [] lists.new.items n ≡ with_train number train lists.old.items n) }
{
    let kept = of_train(alloc, lists[number as usize - 1].as_slice(), train)?;
    lists[number as usize - 1] = kept;
    Ok(())
}

/// Puts an item at the end of the list of a number, counted from 1.
pub(crate) fn put<T: Drop>(lists: &mut Vec<List<T>>, number: u32, item: T) -> Result<(), AllocError>
    requires at_least_one { 1 ≤ number }
    requires within { number ≤ length lists.old.items }
    ensures same_length { length lists.new.items ≡ length lists.old.items }
    ensures put { OnOk result ((n : ℕ) → entry [] lists.new.items n ≡ with_item number item lists.old.items n) }
{
    lists[number as usize - 1].push(item)?;
    Ok(())
}

/// Those of some waits that are for a train.
fn of_train(alloc: Global, waits: &[Wait], train: TrainNo) -> Result<List<Wait>, AllocError>
    ensures { IfOk result (λ kept. kept ≡ of_train train waits.now) }
{
    let mut kept = List::new(alloc);
    for wait in waits {
        if wait.event.train == train {
            kept.push(*wait)?;
        }
    }
    Ok(kept)
}
