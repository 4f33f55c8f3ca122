//! The numbers with which `rcv` ends.

use anyhow::Result;
use cli_shell::Status;

/// Each status, with the number that it has to have.
const NUMBERS: [(Status, u8); 12] = [
    (Status::Done, 0),
    (Status::No, 1),
    (Status::Usage, 2),
    (Status::DesignRefused, 3),
    (Status::PlanRefused, 4),
    (Status::ConflictsSpent, 5),
    (Status::Memory, 6),
    (Status::ShelfFault, 7),
    (Status::SinkFault, 8),
    (Status::TicksSpent, 9),
    (Status::LogSpent, 10),
    (Status::TooLong, 11),
];

/// How many statuses have another number; each is named.
pub(crate) fn wrong_numbers(rt: &impl Print) -> Result<u64> {
    let mut wrong = 0u64;
    for (status, number) in NUMBERS {
        if status.code() != number {
            println!(rt; "{status:?} ends with another number than {number}")?;
            wrong = wrong.saturating_add(1);
        }
    }
    println!(rt; "numbers: {} statuses, {wrong} wrong", NUMBERS.len())?;
    Ok(wrong)
}
