//! The reasons that the changes of a round and the last tables give, and the tables from round to round. Of the evidence only
//! its kind counts here.
ghost use Rattle.certificates.specs.Updates.{rollout};
ghost use Rattle.std.specs.Prelude.{◌≡◌, suc, ◌<◌, ◌≤◌, ◌^◌, length, IfNone, IfSome};
ghost use Rattle.net_base.specs.Members.{IsSameSet};
ghost use Rattle.net_base.specs.declared.ids.SwitchId.{SwitchId as Switch};
ghost use Rattle.topology.specs.Networks.{switch_count, capacity_of};
ghost use Rattle.flow_rules.specs.Tables.{rules_at};
ghost use Rattle.update_model.specs.Changes.{round_after};
ghost use Rattle.update_model.specs.Mixtures.{tables_before};
ghost use Rattle.check_reasons.specs.Loaded.{AreLoaded};
ghost use Rattle.check_reasons.specs.Passed.{ChangesPass, IsFirstFrom};
ghost use Rattle.check_reasons.specs.Ranks.{end_start, round_start, stage_of};
ghost use Rattle.plan_checker.specs.Checking.{IsOfChanges};
ghost use Rattle.round_tables.specs.PreparedTables.{HasTableRoom, StandsBefore};
ghost use Rattle.round_tables.specs.Loading.{ArePrepared, IsFirstRoundFault};

use crate::rewriting::rewrite_of;
use check_reasons::{Case, Reason};
use round_tables::{PreparedTables, Rollout, RoundFault};
use update_model::Change;

/// The update of a case, by its rounds.
fn rollout_of<'a>(case: &Case<'a>) -> Rollout<'a>
    ensures { result ≡ rollout case.now.task }
{
    Rollout {
        net: case.net,
        old: case.old,
        rounds: &case.plan.rounds,
    }
}

/// The changes of round k.
fn round_of<'a>(case: &'a Case, k: usize) -> &'a [Change]
    requires { k < length case.now.task.rounds }
    ensures value { result.now ≡ round_after k case.now.task.rounds }
    ensures few { length result.now < 2 ^ 32 }
{
    case.plan.rounds.round(k)
}

/// The number of round k, from 1.
fn round_number(case: &Case, k: usize) -> u32
    requires { k < length case.now.task.rounds }
    ensures { result ≡ suc k }
{
    let rounds = case.plan.rounds.count();
    prove!(k < rounds);
    k as u32 + 1
}

/// Does nothing: its contract says that there is a table for each switch, and no capacity is above 8192.
fn keeps_tables(case: &Case)
    ensures count { length case.now.task.update.old ≡ switch_count case.now.task.update.net }
    ensures few { (s : Switch) → capacity_of case.now.task.update.net s ≤ 8192 }
{
    case.keeps_rules();
    case.net.keeps_rules();
}

/// Puts the old tables in the place of what is there. No switch is prepared.
pub fn start(case: &Case, tables: &mut PreparedTables)
    requires { HasTableRoom (rollout case.now.task) tables.old }
    ensures stands { StandsBefore (rollout case.now.task) 0 tables.new }
    ensures room { HasTableRoom (rollout case.now.task) tables.new }
{
    case.keeps_rules();
    tables.start(&rollout_of(case));
}

/// The first fault of round k, as a reason.
fn fault_reason(case: &Case, k: usize, fault: RoundFault) -> Reason
    requires round { k < length case.now.task.rounds }
    requires first { IsFirstRoundFault (rollout case.now.task) k fault }
    ensures first { IsFirstFrom case.now.task case.now.evidence (round_start k) result }
    ensures place { IsOfChanges k result }
{
    let round = round_number(case, k);
    let changes = round_of(case, k).len();
    match fault {
        RoundFault::BadChange { switch, change } => {
            prove!(change < changes);
            Reason::BadChange {
                round,
                switch,
                change: change as u32,
            }
        }
        RoundFault::Unclear(switch) => Reason::Ambiguous { round, switch },
    }
}

/// Whether a switch lacks room in round k, or a change of an ordered plan sets or strips.
fn late_reason(case: &Case, k: usize, tables: &PreparedTables) -> Option<Reason>
    requires round { k < length case.now.task.rounds }
    requires prepared { ArePrepared (rollout case.now.task) k tables.now }
    requires room { HasTableRoom (rollout case.now.task) tables.now }
    ensures none { IfNone result (ChangesPass case.now.task case.now.evidence k
        × AreLoaded (rollout case.now.task) k tables.now.mixes) }
    ensures some { IfSome result (IsFirstFrom case.now.task case.now.evidence (round_start k)) }
    ensures place { IfSome result (IsOfChanges k) }
{
    keeps_tables(case);
    let changes = round_of(case, k);
    let round = round_number(case, k);
    if let Some((switch, need)) = tables.first_over(&rollout_of(case), k) {
        return Some(Reason::OverCapacity {
            round,
            switch,
            need,
        });
    }
    match rewrite_of(case, changes) {
        Some(switch) => Some(Reason::Rewrites { round, switch }),
        None => None,
    }
}

/// Prepares each switch for round k, or gives the first reason of the round's changes: the first bad change, the first
/// unclear switch, the first that lacks room, or the first at which a change of an ordered plan sets or strips.
pub fn load_round(case: &Case, k: usize, tables: &mut PreparedTables) -> Option<Reason>
    requires round { k < length case.now.task.rounds }
    requires room { HasTableRoom (rollout case.now.task) tables.old }
    requires stands { StandsBefore (rollout case.now.task) k tables.old }
    ensures none { IfNone result (ChangesPass case.now.task case.now.evidence k
        × AreLoaded (rollout case.now.task) k tables.new.mixes
        × ArePrepared (rollout case.now.task) k tables.new) }
    ensures some { IfSome result (IsFirstFrom case.now.task case.now.evidence (round_start k)) }
    ensures place { IfSome result (IsOfChanges k) }
    ensures room { HasTableRoom (rollout case.now.task) tables.new }
{
    match tables.load_round(&rollout_of(case), k) {
        Ok(()) => late_reason(case, k, tables),
        Err(fault) => Some(fault_reason(case, k, fault)),
    }
}

/// Makes the changes of round k, for which the switches are prepared.
pub fn apply_round(case: &Case, k: usize, tables: &mut PreparedTables)
    requires round { k < length case.now.task.rounds }
    requires room { HasTableRoom (rollout case.now.task) tables.old }
    requires passed { ChangesPass case.now.task case.now.evidence k }
    requires prepared { ArePrepared (rollout case.now.task) k tables.old }
    ensures stands { StandsBefore (rollout case.now.task) (suc k) tables.new }
    ensures room { HasTableRoom (rollout case.now.task) tables.new }
{
    case.keeps_rules();
    tables.apply_round(&rollout_of(case), k);
}

/// The first switch whose table isn't the new one after the last round, as a reason.
pub fn wrong_end(case: &Case, tables: &PreparedTables) -> Option<Reason>
    requires { StandsBefore (rollout case.now.task) (length case.now.task.rounds) tables.now }
    ensures none { IfNone result ((s : Switch)
        → IsSameSet
        (rules_at (tables_before (rollout case.now.task) (length case.now.task.rounds)) s)
        (rules_at case.now.task.update.new s)) }
    ensures some { IfSome result (IsFirstFrom case.now.task case.now.evidence end_start) }
    ensures place { IfSome result (λ r. stage_of r ≡ 3) }
{
    case.net.keeps_rules();
    match tables.first_difference(case.new) {
        Some(switch) => Some(Reason::WrongEnd { switch }),
        None => None,
    }
}
