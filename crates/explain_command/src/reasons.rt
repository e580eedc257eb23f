//! The first round that isn't good and clear.
ghost use Rattle.certificates.specs.Updates.{rollout, task_for};
ghost use Rattle.std.specs.Prelude.{IfOk, IfNone, IfSome};
ghost use Rattle.certificates.specs.Valid.{IsValidPlan};
ghost use Rattle.update_model.specs.Mixtures.{AreGoodRounds, AreClearRounds};
ghost use Rattle.round_tables.specs.Sound.{IsFirstRoundReason};
ghost use Rattle.command_base.specs.Updates.{meaning_of};

use certificates::Plan;
use command_base::UpdateFiles;
use net_base::Memory;
use plan_checker::Reason;
use round_tables::{SoundFault, sound_rounds};
use std::alloc::Global;

/// The first bad change of the rounds, or the first switch with a mixture that isn't clear.
pub fn round_reason(
    alloc: Global,
    files: &UpdateFiles,
    plan: &Plan,
) -> Result<Option<Reason>, Memory>
    requires valid { IsValidPlan files.now.net plan.now }
    ensures good { IfOk result
        (λ found. IfNone found
        (AreGoodRounds (rollout (task_for (meaning_of files.now) plan.now)))) }
    ensures clear { IfOk result
        (λ found. IfNone found
        (AreClearRounds (rollout (task_for (meaning_of files.now) plan.now)))) }
    ensures some { IfOk result
        (λ found. IfSome found
        (IsFirstRoundReason (rollout (task_for (meaning_of files.now) plan.now)))) }
{
    match sound_rounds(alloc, &files.net, &files.old, &plan.rounds) {
        Ok(()) => Ok(None),
        Err(
            SoundFault::BadChange {
                round,
                switch,
                change,
            },
        ) => Ok(Some(Reason::BadChange {
            round,
            switch,
            change,
        })),
        Err(SoundFault::Ambiguous { round, switch }) => {
            Ok(Some(Reason::Ambiguous { round, switch }))
        }
        Err(SoundFault::Memory) => Err(Memory),
    }
}
