//! Why there is no reply.

ghost use Rattle.std.specs.Prelude.{◌≡◌, ◌≢◌};
ghost use Rattle.named_files.specs.Replies.{unmade_of};

use cli_shell::{Ending, Reply};
use std::alloc::AllocError;

/// Why no reply was made to what is asked.
#[derive(Drop)]
pub enum Unmade<'a> {
    /// A file is refused, and this is the reply to that.
    Refused(Reply),
    /// There was no memory.
    Memory,
    /// The file of this name could not be read.
    Unread(&'a str),
}

impl From<AllocError> for Unmade<'_> {
    ghost use Rattle.named_files.specs.declared.unmade.Unmade.TheVariants.{Memory};

    ghost from_gives = { λ _ e. e ≡ Memory };

    fn from(_e: AllocError) -> Self {
        Unmade::Memory
    }
}

/// The same for an ending that is no fault of the shelf.
pub fn unmade_by<'a>(ending: Ending) -> Unmade<'a>
    requires { ending ≢ Ending.ShelfFault }
    ensures { result ≡ unmade_of ending }
{
    match ending {
        Ending::RefusedWith(reply) => Unmade::Refused(reply),
        Ending::Memory => Unmade::Memory,
        Ending::ShelfFault => unreachable!(),
    }
}
