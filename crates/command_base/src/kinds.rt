//! The kinds of files.
ghost use Rattle.std.specs.Prelude.{◌≡◌};
ghost use Rattle.command_base.specs.Kinds.{limit_of, kind_name};

const MEBIBYTE: u64 = 1048576;

/// What a file is.
#[derive(Clone, Copy)]
pub enum FileKind {
    Topology,
    Config,
    Old,
    New,
    Policy,
    Plan,
    Schedule,
    Replies,
    Input,
}

impl FileKind {
    /// The most bytes that a file of the kind may have.
    pub fn limit(self) -> u64
        ensures { result ≡ limit_of self }
    {
        match self {
            FileKind::Topology => 16 * MEBIBYTE,
            FileKind::Config => 16 * MEBIBYTE,
            FileKind::Old => 16 * MEBIBYTE,
            FileKind::New => 16 * MEBIBYTE,
            FileKind::Policy => 16 * MEBIBYTE,
            FileKind::Plan => 512 * MEBIBYTE,
            FileKind::Schedule => 64 * MEBIBYTE,
            FileKind::Replies => 16 * MEBIBYTE,
            FileKind::Input => 64 * MEBIBYTE,
        }
    }

    /// What the kind is called in a line on a bad file.
    pub fn name(self) -> &'static str
        ensures { result.now ≡ kind_name self }
    {
        match self {
            FileKind::Topology => "topology",
            FileKind::Config => "config",
            FileKind::Old => "old",
            FileKind::New => "new",
            FileKind::Policy => "policy",
            FileKind::Plan => "plan",
            FileKind::Schedule => "schedule",
            FileKind::Replies => "replies",
            FileKind::Input => "input",
        }
    }
}
