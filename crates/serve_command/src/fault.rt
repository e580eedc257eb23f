//! Why a line isn't served.
ghost use Rattle.std.specs.Prelude.{◌≡◌};
ghost use Rattle.serve_command.specs.declared.fault.ServeFault.TheVariants as faults;

/// Why a line isn't served.
#[derive(Clone, Copy, Debug, PartialEq, Eq)]
pub enum ServeFault {
    /// The sink failed.
    WriteFault,
    /// Memory was wanting.
    Memory,
}

impl From<net_base::Memory> for ServeFault {
    ghost from_gives = { λ _ e. e ≡ faults.Memory };

    fn from(_: net_base::Memory) -> ServeFault {
        ServeFault::Memory
    }
}
