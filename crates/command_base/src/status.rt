//! How a run ends.
ghost use Rattle.std.specs.Prelude.{◌≡◌};
ghost use Rattle.command_base.specs.Kinds.{exit_code};

/// How a run ends; the exit status is its number, from 0.
#[derive(Clone, Copy, PartialEq, Eq)]
pub enum Status {
    /// The answer is written.
    Done,
    /// What the files describe isn't accepted.
    Refused,
    /// The words are none of the listed forms.
    Usage,
    /// A file can't be read, or the files make too many classes.
    BadFile,
    /// Two phases need more tags than are available.
    TooFewTags,
    /// Two phases need more table entries than a switch has.
    TooSmall,
    /// The source failed, or doesn't hold a file.
    ReadFault,
    /// The sink failed before all was written.
    WriteFault,
    /// An event of the schedule isn't enabled.
    NotARun,
    /// Memory was wanting.
    Memory,
}

impl Status {
    /// The exit status, 0 to 9.
    pub fn code(self) -> u8
        ensures { result ≡ exit_code self }
    {
        self as u8
    }
}
