//! Why a command ends early.
ghost use Rattle.std.specs.Prelude.{◌≡◌};
ghost use Rattle.command_base.specs.declared.exit.Exit.TheVariants.{Memory};

use crate::reply::Reply;

/// Why a command ends early.
#[derive(Drop)]
pub enum Exit {
    /// The source failed, or doesn't hold a file.
    ReadFault,
    /// Memory was wanting.
    Memory,
    /// A file is bad, and this is the whole reply.
    Says(Reply),
}

impl From<net_base::Memory> for Exit {
    ghost from_gives = { λ _ e. e ≡ Memory };

    fn from(_: net_base::Memory) -> Self {
        Exit::Memory
    }
}
