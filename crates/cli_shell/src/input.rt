//! The files that are read.

ghost use Rattle.std.specs.Prelude.{◌≡◌};
ghost use Rattle.cli_shell.specs.Texts.{file_text, limit_of};

/// A file that is read.
#[derive(Clone, Copy, Debug, PartialEq, Eq)]
pub enum InputFile {
    Design,
    Plan,
    Proof,
}

impl InputFile {
    /// The word for it.
    pub fn text(self) -> &'static str
        ensures { result.now ≡ file_text self }
    {
        match self {
            InputFile::Design => "design",
            InputFile::Plan => "plan",
            InputFile::Proof => "proof",
        }
    }

    /// The most bytes that it may have.
    pub fn limit(self) -> u64
        ensures { result ≡ limit_of self }
    {
        match self {
            InputFile::Design | InputFile::Plan => 8_388_608,
            InputFile::Proof => 268_435_456,
        }
    }
}
