//! What is to be printed.

ghost use Rattle.std.specs.Prelude.{◌≡◌, true};
ghost use Rattle.cli_shell.specs.Statuses.{is_answered};

use crate::status::Status;

/// What is to be printed, line by line, and the status to end with when it is.
#[derive(Drop)]
pub struct Reply {
    pub status: Status,
    pub lines: Vec<Vec<u8>>,
    pub ghost answered: { is_answered status ≡ true },
}
