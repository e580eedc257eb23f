//! The line of `sample`.
ghost use Rattle.std.specs.Prelude.{◌≡◌, IfOk, length};
ghost use Rattle.sample_command.specs.Summaries as lines;

use certificates::OrderedEvidence;
use net_base::Memory;
use std::alloc::Global;

/// The ring, and the rounds and classes of its update.
fn update_part(alloc: Global, switches: u32, rounds: usize, classes: u32) -> Result<Vec<u8>, Memory>
    ensures { IfOk result (λ t. t.items ≡ lines.update_part switches rounds classes) }
{
    Ok(format!(in alloc;
        "sample {switches}: ordered, {rounds} rounds, {classes} classes, "
    )?.into_bytes())
}

/// The lengths of the plan's lists.
fn evidence_part(alloc: Global, numberings: usize, picks: usize) -> Result<Vec<u8>, Memory>
    ensures { IfOk result (λ t. t.items ≡ lines.evidence_part numberings picks) }
{
    Ok(format!(in alloc; "{numberings} numberings, {picks} picks, accepted\n")?.into_bytes())
}

/// The line on so many switches, rounds and classes, and on the evidence of an ordered plan.
pub fn sample_line(
    alloc: Global,
    switches: u32,
    rounds: usize,
    classes: u32,
    evidence: &OrderedEvidence,
) -> Result<Vec<u8>, Memory>
    ensures { IfOk result (λ t. t.items ≡ lines.sample_line switches rounds classes
        (length evidence.now.numberings) (length evidence.now.picks)) }
{
    let numberings = evidence.numberings.list().len();
    let picks = evidence.picks.list().len();
    let mut line = update_part(alloc, switches, rounds, classes)?;
    line.extend_from_slice(&evidence_part(alloc, numberings, picks)?)?;
    Ok(line)
}
