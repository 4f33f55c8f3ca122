//! Where a design is refused.

ghost use Rattle.std.specs.Prelude.{◌≡◌};
ghost use Rattle.design_table.specs.Keys.{kind_key};

use crate::key::Key;

/// A kind of entry, and the array in which entries of that kind stand.
#[derive(Clone, Copy, Debug, PartialEq, Eq)]
pub enum EntryKind {
    Node,
    Edge,
    Signal,
    Vehicle,
    Train,
    Order,
    Within,
    Overlap,
}

impl EntryKind {
    /// The key of the array.
    pub fn key(self) -> Key
        ensures { result ≡ kind_key self }
    {
        match self {
            EntryKind::Node => Key::Node,
            EntryKind::Edge => Key::Edge,
            EntryKind::Signal => Key::Signal,
            EntryKind::Vehicle => Key::Vehicle,
            EntryKind::Train => Key::Train,
            EntryKind::Order => Key::Order,
            EntryKind::Within => Key::Within,
            EntryKind::Overlap => Key::Overlap,
        }
    }
}

/// A place of a design. Entries are counted from 1.
#[derive(Clone, Copy, Debug, PartialEq, Eq)]
pub enum Place {
    /// The document as a whole: `file`.
    File,
    /// A key at the top, an array too: `version`, `node`.
    Top(Key),
    /// An entry of an array: `edge[3]`.
    Entry(EntryKind, u64),
    /// A key of an entry: `edge[3].length_mm`.
    Field(EntryKind, u64, Key),
    /// The unknown keys of an entry: `edge[3].?`.
    UnknownField(EntryKind, u64),
    /// The unknown keys at the top: `?`.
    Unknown,
    /// The routes of the track: `routes`.
    Routes,
}
