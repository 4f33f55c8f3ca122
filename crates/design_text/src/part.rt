//! Parts of a line that stand in a row, with commas between them.

ghost use Rattle.std.specs.Prelude.{◌≡◌, ◌++◌, ℕ, List, map, decimal, OnOk};
ghost use Rattle.std.specs.List.{flat_map};
ghost use Rattle.rail_base.specs.declared.station.Station.{Station};
ghost use Rattle.rail_base.specs.Names.{node_name, section_name};
ghost use Rattle.design_text.specs.Texts.{behind_comma, in_brackets, in_quotes, joined, visit_text};

use rail_base::design::Design;
use rail_base::list::List;
use rail_base::names::{node_name, section_name};
use rail_base::station::{NodeNo, SectionNo};
use rail_text::put_number;
use std::alloc::AllocError;

/// A part of a line.
pub(crate) trait Part {
    /// Its text.
    ghost text: { Station → Self → List ℕ };

    /// Appends its text.
    fn put(&self, line: &mut Vec<u8>, design: &Design) -> Result<(), AllocError>
        ensures { OnOk result (line.new.items ≡ line.old.items ++ text design.now.station self.now) };
}

/// Appends parts, each behind a comma and a space.
fn put_more<P: Part>(line: &mut Vec<u8>, design: &Design, parts: &[P]) -> Result<(), AllocError>
    ensures { OnOk result (line.new.items
        ≡ line.old.items ++ flat_map behind_comma (map (P.text design.now.station) parts.now)) }
{
    for part in parts {
        line.extend_from_slice(b", ")?;
        part.put(line, design)?;
    }
    Ok(())
}

/// Appends parts, with a comma and a space between two of them.
pub(crate) fn put_joined<P: Part>(
    line: &mut Vec<u8>,
    design: &Design,
    parts: &[P],
) -> Result<(), AllocError>
    ensures { OnOk result (line.new.items
        ≡ line.old.items ++ joined (map (P.text design.now.station) parts.now)) }
{
    if let Some((first, more)) = parts.split_first() {
        first.put(line, design)?;
        put_more(line, design, more)?;
    }
    Ok(())
}

/// Appends the same in brackets.
pub(crate) fn put_bracketed<P: Part>(
    line: &mut Vec<u8>,
    design: &Design,
    parts: &[P],
) -> Result<(), AllocError>
    ensures { OnOk result (line.new.items
        ≡ line.old.items ++ in_brackets (map (P.text design.now.station) parts.now)) }
{
    line.push(b'[')?;
    put_joined(line, design, parts)?;
    line.push(b']')?;
    Ok(())
}

/// Appends a text in quotes.
pub(crate) fn put_quoted(line: &mut Vec<u8>, text: &[u8]) -> Result<(), AllocError>
    ensures { OnOk result (line.new.items ≡ line.old.items ++ in_quotes text.now) }
{
    line.push(b'"')?;
    line.extend_from_slice(text)?;
    line.push(b'"')?;
    Ok(())
}

impl Part for u32 {
    ghost text = { λ d number. decimal number };

    fn put(&self, line: &mut Vec<u8>, _design: &Design) -> Result<(), AllocError>
        ensures { OnOk result (line.new.items ≡ line.old.items ++ decimal self.now) }
    {
        put_number(line, u64::from(*self))
    }
}

/// A node, by its name.
impl Part for NodeNo {
    ghost text = { λ d n. in_quotes (node_name d n) };

    fn put(&self, line: &mut Vec<u8>, design: &Design) -> Result<(), AllocError>
        ensures { OnOk result (line.new.items
            ≡ line.old.items ++ in_quotes (node_name design.now.station self.now)) }
    {
        put_quoted(line, node_name(design, *self))
    }
}

/// A section, by its name.
impl Part for SectionNo {
    ghost text = { λ d z. in_quotes (section_name d z) };

    fn put(&self, line: &mut Vec<u8>, design: &Design) -> Result<(), AllocError>
        ensures { OnOk result (line.new.items
            ≡ line.old.items ++ in_quotes (section_name design.now.station self.now)) }
    {
        put_quoted(line, section_name(design, *self))
    }
}

/// A visit: the names of its nodes.
impl Part for List<NodeNo> {
    ghost text = { visit_text };

    fn put(&self, line: &mut Vec<u8>, design: &Design) -> Result<(), AllocError>
        ensures { OnOk result (line.new.items ≡ line.old.items ++ visit_text design.now.station self.now) }
    {
        put_bracketed(line, design, self.as_slice())
    }
}
