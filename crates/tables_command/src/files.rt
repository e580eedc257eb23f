//! The files of a recorded run of an update that may be turned back.
ghost use Rattle.std.specs.Prelude.{◌≡◌, ◌≤◌, IfOk, IfErr, OnOk, Some, Option};
ghost use Rattle.flow_rules.specs.Tables.{rules_of_all};
ghost use Rattle.path_walk.specs.UserConfigs.{IsUserConfig};
ghost use Rattle.certificates.specs.Valid.{IsValidPlan};
ghost use Rattle.command_base.specs.declared.kinds.FileKind.{FileKind};
ghost use Rattle.command_base.specs.Dialogues.{FileRead, file_read, Gives, IsWhole};
ghost use Rattle.command_base.specs.Replies.{EndsEarly};
ghost use Rattle.replay_command.specs.Names.{names_seen};
ghost use Rattle.tables_command.specs.Tabled.{meaning_of, tables_dialogue};

use crate::readings::read_two_way_file;
use certificates::Plan;
use command_base::{Exit, FileKind, read_configuration, read_plan_file, read_topology};
use file_access::Source;
use flow_rules::Config;
use replay_command::ReplayNames;
use std::alloc::Global;
use topology::Net;
use two_way_replay::TwoWaySchedule;

/// A network, its old configuration, a plan, and a schedule by which its rounds are carried out and turned back.
#[derive(Drop)]
pub struct TablesFiles {
    pub net: Net,
    pub old: Config,
    pub plan: Plan,
    pub schedule: TwoWaySchedule,
}

/// Fetches and reads the files, in the order of their names.
///
/// # Errors
///
/// `ReadFault` where the source failed or doesn't hold a file; `Says` the line on the first bad file; `Memory`.
pub(crate) fn read_tables_files<S: Source>(
    alloc: Global,
    source: &mut S,
    names: &ReplayNames<'_>,
) -> Result<TablesFiles, Exit>
    ensures gives { IfOk result (λ v. (last : Option FileRead)
        → Gives (S.held source.old) last (tables_dialogue (names_seen names.now)) (meaning_of v)
        (Some (file_read FileKind.Schedule names.now.schedule.now))) }
    ensures user { IfOk result (λ v. IsUserConfig v.net (rules_of_all v.old)) }
    ensures valid { IfOk result (λ v. IsValidPlan v.net v.plan) }
    ensures whole { OnOk result (IsWhole (Some (file_read FileKind.Schedule names.now.schedule.now))
        (S.selected source.new) (S.taken source.new)) }
    ensures stops { IfErr result (λ e. (last : Option FileRead)
        → EndsEarly (S.held source.old) last (tables_dialogue (names_seen names.now))
        (S.faults source.old) (S.faults source.new) e (S.selected source.new)
        (S.taken source.new)) }
    ensures held { S.held source.new ≡ S.held source.old }
    ensures later { S.faults source.old ≤ S.faults source.new }
{
    let net = read_topology(alloc, source, names.topology)?;
    // Each way out says `drop`: what a scope lets go by itself is proved part by part.
    let old = match read_configuration(alloc, source, FileKind::Old, &net, names.old) {
        Ok(old) => old,
        Err(exit) => {
            drop(net);
            return Err(exit);
        }
    };
    let plan = match read_plan_file(alloc, source, &net, names.plan) {
        Ok(plan) => plan,
        Err(exit) => {
            drop(old);
            drop(net);
            return Err(exit);
        }
    };
    let schedule = match read_two_way_file(alloc, source, &net, names.schedule) {
        Ok(schedule) => schedule,
        Err(exit) => {
            drop(plan);
            drop(old);
            drop(net);
            return Err(exit);
        }
    };
    Ok(TablesFiles {
        net,
        old,
        plan,
        schedule,
    })
}
