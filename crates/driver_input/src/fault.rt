//! Why bytes are no file of inputs.
ghost use Rattle.std.specs.Prelude.{◌≡◌};
ghost use Rattle.driver_input.specs.declared.fault.InputFault.TheVariants.{Memory};
ghost use Rattle.driver_input.specs.Faults.{fault_number, fault_name, fault_place};

/// Why bytes are no file of inputs.
#[derive(Clone, Copy, Debug, PartialEq, Eq)]
pub enum InputFault {
    /// The line of this number, from 1, is neither a comment nor an input, or its switch isn't declared.
    BadLine(u32),
    /// More than 1,000,000 inputs.
    TooMany,
    /// Memory was wanting.
    Memory,
}

impl InputFault {
    /// The number of the refusal, 1 or 2; 0 for want of memory, which is none.
    pub fn number(self) -> u32
        ensures { result ≡ fault_number self }
    {
        match self {
            InputFault::BadLine(_) => 1,
            InputFault::TooMany => 2,
            InputFault::Memory => 0,
        }
    }

    /// The printed word: the variant's name.
    pub fn name(self) -> &'static str
        ensures { result.now ≡ fault_name self }
    {
        match self {
            InputFault::BadLine(_) => "BadLine",
            InputFault::TooMany => "TooMany",
            InputFault::Memory => "Memory",
        }
    }

    /// The place: the number of the line, from 1; 0 for a fault of the whole file.
    pub fn place(self) -> u32
        ensures { result ≡ fault_place self }
    {
        match self {
            InputFault::BadLine(line) => line,
            InputFault::TooMany | InputFault::Memory => 0,
        }
    }
}

impl From<net_base::Memory> for InputFault {
    ghost from_gives = { λ _ e. e ≡ Memory };

    fn from(_: net_base::Memory) -> InputFault {
        InputFault::Memory
    }
}
