//! How the work may end early.

ghost use Rattle.std.specs.Prelude.{◌≡◌};
ghost use Rattle.cli_shell.specs.declared.ending.Ending.TheVariants.{Memory};

use crate::reply::Reply;
use std::alloc::AllocError;

/// Why the work ends before its verdict.
#[derive(Drop)]
pub enum Ending {
    /// The words or a file are refused.
    RefusedWith(Reply),
    /// Memory ran out.
    Memory,
    /// The shelf failed.
    ShelfFault,
}

impl From<AllocError> for Ending {
    ghost from_gives = { λ _ ending. ending ≡ Memory };

    fn from(_error: AllocError) -> Ending {
        Ending::Memory
    }
}
