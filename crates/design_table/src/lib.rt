//! A design as its TOML document has it: the table of its entries, before any rule of railways is asked.
//!
//! A document that is no TOML is refused as D01, and a key of the wrong form as D02. The layer above owns the
//! rules on what the entries say.
#![tactic(auto)]

mod document;
mod entry;
mod fault;
mod field;
mod fields;
mod items;
mod key;
mod place;
mod read;
mod sheet;

pub use document::toml_table;
pub use fault::{Code, DesignFault};
pub use field::Form;
pub use key::{Column, Key, columns_of, is_known, top_columns, version_number};
pub use place::{EntryKind, Place};
pub use read::{read_sheet, version_of};
pub use sheet::{
    EdgeEntry, NodeEntry, OrderEntry, OverlapEntry, Sheet, Side, SignalEntry, TrainEntry,
    VehicleEntry, WithinEntry,
};
