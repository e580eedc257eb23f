//! The line on a plan that is certified.
ghost use Rattle.std.specs.Prelude.{◌≡◌, IfOk};
ghost use Rattle.check_command.specs.AcceptedLine as lines;

use certificates::Evidence;
use net_base::Memory;
use std::alloc::Global;

/// The word for the kind of a plan.
fn kind_word(evidence: &Evidence) -> &'static str
    ensures { result.now ≡ lines.kind_word evidence.now }
{
    match evidence {
        Evidence::Ordered(_) => "ordered",
        Evidence::TwoPhase(_) => "two-phase",
    }
}

/// The line on a plan that is certified.
pub(crate) fn accepted_line(
    alloc: Global,
    evidence: &Evidence,
    rounds: usize,
    classes: u32,
) -> Result<Vec<u8>, Memory>
    ensures { IfOk result (λ t. t.items ≡ lines.accepted_line evidence.now rounds classes) }
{
    let kind = kind_word(evidence);
    Ok(format!(in alloc; "accepted: {kind}, {rounds} rounds, {classes} classes\n")?.into_bytes())
}
