//! Worked examples of `rcv`, as data files have them: files on a shelf, commands that are run over it, and what they
//! have to answer and to leave. Beside them stand a shelf and a sink in memory that want memory at a chosen call.
#![tactic(auto)]

mod judging;
mod row;
mod texts;
mod wanting;

pub use judging::{may_answer, may_leave};
pub use row::command::{Command, Leaves, SinkFaults};
pub use row::run::{Behind, Run, Search};
pub use row::{DesignText, FileTexts, PlanText, Row, ShelfFaults, rows_of};
pub use texts::{Text, fetch_text, texts_of};
pub use wanting::{WantingShelf, WantingSink};
