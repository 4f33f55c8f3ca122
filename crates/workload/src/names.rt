//! Names of letters and numbers.

ghost use Rattle.std.specs.Prelude.{◌≡◌, ◌≤◌, ◌++◌, map, IfOk, OnOk, codes};
ghost use Rattle.rail_base.specs.Numbering.{one_to};
ghost use Rattle.workload.specs.Track.{numbered_name, sections};

use rail_base::list::{List, Name};
use rail_text::put_number;
use std::alloc::{AllocError, Global};

/// A name of letters alone.
pub fn plain(alloc: Global, letters: &[u8]) -> Result<Name, AllocError>
    ensures { IfOk result (λ name. name ≡ letters.now) }
{
    Ok(Name::from_vec(Vec::from_slice(alloc, letters)?))
}

/// A name of letters and then a number.
pub fn numbered_name(alloc: Global, letters: &[u8], number: u32) -> Result<Name, AllocError>
    ensures { IfOk result (λ name. name ≡ numbered_name letters.now number) }
{
    let mut name = Vec::from_slice(alloc, letters)?;
    put_number(&mut name, u64::from(number))?;
    Ok(Name::from_vec(name))
}

/// The names of the sections, by their numbers.
pub fn sections(alloc: Global, size: u32) -> Result<List<Name>, AllocError>
    requires { size ≤ 6 }
    ensures { IfOk result (λ all. all ≡ sections size) }
{
    let west = plain(alloc, b"W")?;
    let mut names = vec![in alloc; west]?;
    push_track_sections(alloc, size, &mut names)?;
    names.push(plain(alloc, b"E")?)?;
    Ok(List::from_vec(names))
}

/// Adds the names of the sections of the tracks.
fn push_track_sections(alloc: Global, size: u32, names: &mut Vec<Name>) -> Result<(), AllocError>
    requires { size ≤ 6 }
    ensures { OnOk result (names.new.items ≡ names.old.items ++ map (numbered_name (codes "T")) (one_to size)) }
{
    for track in 1..size + 1 {
        names.push(numbered_name(alloc, b"T", track)?)?;
    }
    Ok(())
}
