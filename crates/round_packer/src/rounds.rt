//! Rounds are packed until nothing remains, or until nothing that remains can stand in a round.
ghost use Rattle.std.specs.Prelude.{◌≡◌, ◌<◌, ◌++◌, ◌∷◌, [], ℕ, List, length, IfOk, OnOk};
ghost use Rattle.flow_rules.specs.Tables.{rules_of_all};
ghost use Rattle.flow_rules.specs.declared.rules.Rule.{Rule};
ghost use Rattle.path_walk.specs.UserConfigs.{IsUserConfig};
ghost use Rattle.dest_classes.specs.Classes.{class_count};
ghost use Rattle.update_model.specs.Changes.{tables_after};
ghost use Rattle.update_model.specs.Remaining.{remaining_changes};
ghost use Rattle.table_difference.specs.Targets.{Target};
ghost use Rattle.round_tables.specs.Filling.{AreTakenChanges};
ghost use Rattle.round_judge.specs.Goals.{HasAtoms};
ghost use Rattle.round_packer.specs.Filling.{EndsAt, IsPackedTo};
ghost use Rattle.round_packer.specs.Ends.{IsPacking};

use crate::Packing;
use crate::failing::{RemainingChanges, forget_met};
use crate::filling::fill;
use crate::judging::all_safe;
use class_watch::{ClassWatch, LookedAtoms};
use flow_rules::Config;
use net_base::Memory;
use round_judge::{Goal, watch_rooms};
use round_tables::PreparedTables;
use std::alloc::Global;
use table_difference::remaining;
use update_model::{Change, Rounds};

/// Makes the taken changes as one round more. After a refusal the rounds are lost.
fn keep_round(
    alloc: Global,
    goal: &Goal,
    trial: &mut PreparedTables,
    rounds: &mut Rounds,
) -> Result<(), Memory>
    requires { AreTakenChanges goal.now.net trial.old }
    ensures rounds { OnOk result (rounds.new ≡ rounds.old ++ trial.old.round ∷ []) }
    ensures tables { OnOk result
        (rules_of_all trial.new.tables
        ≡ tables_after trial.old.round (rules_of_all trial.old.tables)) }
    ensures none { OnOk result (trial.new.round ≡ []) }
    ensures trial { OnOk result (AreTakenChanges goal.now.net trial.new) }
{
    rounds.push_round(Vec::from_slice(alloc, trial.round())?)?;
    trial.make_round(goal.net)
}

/// The changes that remain from the tables on.
fn left_of(alloc: Global, goal: &Goal, trial: &PreparedTables) -> Result<Vec<Change>, Memory>
    requires { AreTakenChanges goal.now.net trial.now }
    ensures { IfOk result (λ left. left.items
        ≡ remaining_changes (rules_of_all trial.now.tables) goal.now.new) }
{
    goal.net.keeps_rules();
    remaining(alloc, trial.tables(), goal.new)
}

/// Packs rounds from the tables on. The answer is whether nothing remains at last.
fn pack_rounds(
    alloc: Global,
    goal: &Goal,
    trial: &mut PreparedTables,
    watch: &mut ClassWatch,
    looked: &mut LookedAtoms,
    rounds: &mut Rounds,
) -> Result<bool, Memory>
    requires packed { (old : List (List Rule))
        × IsPackedTo goal.now old rounds.old trial.old watch.old.came.items looked.old }
    ensures { IfOk result (λ none_remains. (old : List (List Rule))
        → IsPackedTo goal.now old rounds.old trial.old watch.old.came.items looked.old
        → EndsAt goal.now old rounds.new none_remains) }
{
    goal.keeps_rules();
    let mut changes = left_of(alloc, goal, trial)?;
    let mut failed = Vec::new(alloc);
    'packing: while !changes.is_empty() {
        let left = RemainingChanges {
            changes: &changes,
            failed: &failed,
        };
        failed = fill(alloc, goal, trial, watch, looked, &left)?;
        if trial.round().is_empty() {
            return Ok(false);
        }
        forget_met(&mut failed, trial.round());
        keep_round(alloc, goal, trial, rounds)?;
        changes = left_of(alloc, goal, trial)?;
    }
    Ok(true)
}

/// Packs rounds from the tables of a configuration on. The answer is whether nothing remains at last.
fn pack_from(
    alloc: Global,
    goal: &Goal,
    trial: &mut PreparedTables,
    watch: &mut ClassWatch,
    looked: &mut LookedAtoms,
    rounds: &mut Rounds,
) -> Result<bool, Memory>
    requires trial { AreTakenChanges goal.now.net trial.old }
    requires none { trial.old.round ≡ [] }
    requires old { IsUserConfig goal.now.net (rules_of_all trial.old.tables) }
    requires came { length watch.old.came.items ≡ class_count goal.now.classes }
    requires atoms { HasAtoms goal.now.classes looked.old }
    requires rounds { rounds.old ≡ [] }
    ensures { IfOk result (EndsAt goal.now (rules_of_all trial.old.tables) rounds.new) }
{
    goal.keeps_rules();
    if all_safe(alloc, goal, watch, trial.mixes())? {
        return pack_rounds(alloc, goal, trial, watch, looked, rounds);
    }
    let left = left_of(alloc, goal, trial)?;
    Ok(left.is_empty())
}

/// The rounds, as ordered where nothing remains after them.
fn answer_of(rounds: Rounds, none_remains: bool) -> Packing
    ensures { (to : Target) (old : List (List Rule)) → EndsAt to old rounds none_remains
        → IsPacking to old result }
{
    if none_remains {
        Packing::Ordered(rounds)
    } else {
        Packing::Stuck(rounds)
    }
}

/// The packing from the tables of a configuration on.
pub(crate) fn packing_of(alloc: Global, goal: &Goal, old: &Config) -> Result<Packing, Memory>
    requires old { IsUserConfig goal.now.net (rules_of_all old.now) }
    ensures { IfOk result (IsPacking goal.now (rules_of_all old.now)) }
{
    let mut rounds = Rounds::make(alloc)?;
    let (mut looked, mut watch) = watch_rooms(alloc, goal.classes)?;
    let mut trial = PreparedTables::for_trials(alloc, goal.net, old)?;
    let ended = pack_from(
        alloc,
        goal,
        &mut trial,
        &mut watch,
        &mut looked,
        &mut rounds,
    );
    drop(trial);
    drop(watch);
    drop(looked);
    Ok(answer_of(rounds, ended?))
}
