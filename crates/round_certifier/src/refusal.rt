//! Why rounds have no evidence.
use check_reasons::Reason;
use net_base::Memory;

/// Why rounds have no evidence that certifies them.
#[derive(Clone, Copy)]
pub enum Refusal {
    /// A reason of the checker that doesn't speak of evidence: that of an end, of the changes of a round, or of the tables after
    /// the last one.
    Checked(Reason),
    /// The plan is a two-phase plan.
    TwoPhasePlan,
    /// In this round, from 1, no numbering and no before sets keep the class with this number safe.
    NoEvidence { round: u32, class: u32 },
}

/// Why no evidence was made.
#[derive(Clone, Copy)]
pub enum CertifyFault {
    /// There is none that certifies the rounds.
    Refused(Refusal),
    /// Memory was wanting.
    Memory,
}

impl From<Memory> for CertifyFault {
    ghost use Rattle.std.specs.Prelude.{◌≡◌};
    ghost use Rattle.round_certifier.specs.declared.refusal.CertifyFault.TheVariants.{Memory};

    ghost from_gives = { λ _ e. e ≡ Memory };

    fn from(_: Memory) -> Self {
        CertifyFault::Memory
    }
}
