//! Files, read.

ghost use Rattle.std.specs.Prelude.{◌≡◌, [], ◌∷◌, OnOk, true};
ghost use Rattle.rail_outside.specs.Asks.{fetched};
ghost use Rattle.rail_outside.specs.Growth.{grown};
ghost use Rattle.cli_shell.specs.Uses.{OnlyFetches};
ghost use Rattle.named_files.specs.Replies.{Fetches, is_unread};

use crate::unmade::Unmade;
use cli_shell::{Ending, InputFile, fetch};
use rail_outside::Shelf;
use std::alloc::Global;

/// The bytes of a file within its limit. The error says that there are more, or that it could not be read, or is want
/// of memory.
pub fn fetch_named<'a, S: Shelf>(
    alloc: Global,
    shelf: &mut S,
    file: InputFile,
    name: &'a str,
) -> Result<Vec<u8>, Unmade<'a>>
    ensures fetches { Fetches (S.known_files shelf.old) file name.entry.now result }
    ensures uses { OnlyFetches S.known_files S.asked S.fault_count shelf.old shelf.new
        (fetched name.entry.now ∷ []) (is_unread result ≡ true) }
    ensures asked { OnOk result (S.asked shelf.new ≡ grown (S.asked shelf.old) (fetched name.entry.now ∷ [])) }
{
    match fetch(alloc, shelf, file, name) {
        Ok(bytes) => Ok(bytes),
        Err(Ending::RefusedWith(reply)) => Err(Unmade::Refused(reply)),
        Err(Ending::Memory) => Err(Unmade::Memory),
        Err(Ending::ShelfFault) => Err(Unmade::Unread(name)),
    }
}
