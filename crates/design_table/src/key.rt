//! The keys of a design, and the table of the format: the columns of each kind of entry.

ghost use Rattle.std.specs.Prelude.{◌≡◌, ◌&&◌, bytes_eq};
ghost use Rattle.std.specs.List.{list_any};
ghost use Rattle.design_table.specs.Forms.{is_known};
ghost use Rattle.design_table.specs.Keys.{key_text, version_number, known_in, keys_in, columns_of, top_columns};

use crate::field::Form;
use crate::place::EntryKind;

/// A key of the design, at its top or in one of its entries.
#[derive(Clone, Copy, Debug, PartialEq, Eq)]
pub enum Key {
    Version,
    TickMs,
    HorizonMs,
    Node,
    Edge,
    Signal,
    Vehicle,
    Train,
    Order,
    Within,
    Overlap,
    Name,
    Boundary,
    From,
    FromSide,
    To,
    ToSide,
    LengthMm,
    SpeedMmS,
    Section,
    Toward,
    AccelMmS2,
    BrakeMmS2,
    Visits,
    DwellMs,
    FirstTrain,
    FirstVisit,
    ThenTrain,
    ThenVisit,
    FromTrain,
    FromVisit,
    ToTrain,
    ToVisit,
    MaxMs,
    Sections,
    HoldMs,
}

impl Key {
    /// The key as the document writes it.
    pub fn text(self) -> &'static str
        ensures { result.now ≡ key_text self }
    {
        match self {
            Key::Version => "version",
            Key::TickMs => "tick_ms",
            Key::HorizonMs => "horizon_ms",
            Key::Node => "node",
            Key::Edge => "edge",
            Key::Signal => "signal",
            Key::Vehicle => "vehicle",
            Key::Train => "train",
            Key::Order => "order",
            Key::Within => "within",
            Key::Overlap => "overlap",
            Key::Name => "name",
            Key::Boundary => "boundary",
            Key::From => "from",
            Key::FromSide => "from_side",
            Key::To => "to",
            Key::ToSide => "to_side",
            Key::LengthMm => "length_mm",
            Key::SpeedMmS => "speed_mm_s",
            Key::Section => "section",
            Key::Toward => "toward",
            Key::AccelMmS2 => "accel_mm_s2",
            Key::BrakeMmS2 => "brake_mm_s2",
            Key::Visits => "visits",
            Key::DwellMs => "dwell_ms",
            Key::FirstTrain => "first_train",
            Key::FirstVisit => "first_visit",
            Key::ThenTrain => "then_train",
            Key::ThenVisit => "then_visit",
            Key::FromTrain => "from_train",
            Key::FromVisit => "from_visit",
            Key::ToTrain => "to_train",
            Key::ToVisit => "to_visit",
            Key::MaxMs => "max_ms",
            Key::Sections => "sections",
            Key::HoldMs => "hold_ms",
        }
    }
}

/// The number of a version, from 1 to 4; 0 for a number that is no version.
pub fn version_number(version: i64) -> u64
    ensures { result ≡ version_number version }
{
    u64::try_from(version)
        .ok()
        .filter(|number| *number <= 4)
        .unwrap_or(0)
}

/// A column: a key, the form of its value, and the first version that has it.
#[derive(Clone, Copy, Debug)]
pub struct Column {
    pub key: Key,
    pub form: Form,
    pub since: u32,
}

impl Column {
    /// Whether a version knows the column: one from its first on. What is no version knows what version 1 has.
    pub fn is_known_in(self, version: u64) -> bool
        ensures { result ≡ known_in version self }
    {
        self.since <= 1 || u64::from(self.since) <= version
    }
}

/// Whether a text is the key of one of these columns that a version knows.
fn is_among(columns: &[Column], version: u64, text: &str) -> bool
    ensures { result ≡ list_any (λ c. known_in version c && bytes_eq (key_text c.key) text.now) columns.now }
{
    columns.iter().any(|column| column.is_known_in(version) && column.key.text() == text)
}

/// Whether a text is one of the keys of these columns that a version knows.
#[tactic(auto, using(crate::proofs::KeyLists::known_among))]
pub fn is_known(columns: &[Column], version: u64, text: &str) -> bool
    ensures { result ≡ is_known (keys_in version columns.now) text.now }
{
    is_among(columns, version, text)
}

/// A row of the table.
macro_rules! row {
    ($key:ident, $form:ident, $since:literal) => {
        Column {
            key: Key::$key,
            form: Form::$form,
            since: $since,
        }
    };
}

/// The columns of a kind of entry, in order.
pub fn columns_of(kind: EntryKind) -> &'static [Column]
    ensures { result.now ≡ columns_of kind }
{
    match kind {
        EntryKind::Node => &[row!(Name, Name, 1), row!(Boundary, Flag, 1)],
        EntryKind::Edge => &[
            row!(Name, Name, 1),
            row!(From, Name, 1),
            row!(FromSide, Side, 1),
            row!(To, Name, 1),
            row!(ToSide, Side, 1),
            row!(LengthMm, Whole, 1),
            row!(SpeedMmS, Whole, 1),
            row!(Section, Name, 1),
        ],
        EntryKind::Signal => &[
            row!(Name, Name, 1),
            row!(Node, Name, 1),
            row!(Toward, Side, 1),
        ],
        EntryKind::Vehicle => &[
            row!(Name, Name, 1),
            row!(LengthMm, Whole, 1),
            row!(AccelMmS2, Whole, 1),
            row!(BrakeMmS2, Whole, 1),
            row!(SpeedMmS, Whole, 1),
        ],
        EntryKind::Train => &[
            row!(Name, Name, 1),
            row!(Vehicle, Name, 1),
            row!(Visits, Visits, 1),
            row!(DwellMs, Wholes, 3),
        ],
        EntryKind::Order => &[
            row!(FirstTrain, Name, 1),
            row!(FirstVisit, Whole, 1),
            row!(ThenTrain, Name, 1),
            row!(ThenVisit, Whole, 1),
        ],
        EntryKind::Within => &[
            row!(FromTrain, Name, 1),
            row!(FromVisit, Whole, 1),
            row!(ToTrain, Name, 1),
            row!(ToVisit, Whole, 1),
            row!(MaxMs, Whole, 1),
        ],
        EntryKind::Overlap => &[
            row!(Signal, Name, 4),
            row!(Sections, Names, 4),
            row!(HoldMs, Whole, 4),
        ],
    }
}

/// The columns of the top, in order.
pub fn top_columns() -> &'static [Column]
    ensures { result.now ≡ top_columns }
{
    &[
        row!(Version, Whole, 1),
        row!(TickMs, Whole, 1),
        row!(HorizonMs, Whole, 1),
        row!(Node, Array, 1),
        row!(Edge, Array, 1),
        row!(Signal, Array, 1),
        row!(Vehicle, Array, 1),
        row!(Train, Array, 1),
        row!(Order, Array, 1),
        row!(Within, Array, 1),
        row!(Overlap, Array, 4),
    ]
}
