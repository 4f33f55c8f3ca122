//! The edge over real files, standard output and error, and the words of a command line. What a file holds and what a terminal
//! shows is said by no clause.
#![tactic(auto)]

mod bytes;
mod file_shelf;
mod out_sink;
mod progress_sink;
mod words;

pub use file_shelf::FileShelf;
pub use out_sink::OutSink;
pub use progress_sink::ProgressSink;
pub use words::command_words;
