//! Why bytes are no line.
ghost use Rattle.std.specs.Prelude.{◌≡◌};
ghost use Rattle.serve_lines.specs.declared.fault.LineFault.TheVariants as faults;

/// Why bytes are no line.
#[derive(Clone, Copy, Debug, PartialEq, Eq)]
pub enum LineFault {
    /// They have none of the forms of a line, name a switch that isn't declared, or are too many.
    Bad,
    /// Memory was wanting.
    Memory,
}

impl From<net_base::Memory> for LineFault {
    ghost from_gives = { λ _ e. e ≡ faults.Memory };

    fn from(_: net_base::Memory) -> LineFault {
        LineFault::Memory
    }
}
