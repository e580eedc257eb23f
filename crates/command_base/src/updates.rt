//! The files of an update.
ghost use Rattle.std.specs.Prelude.{◌≡◌, ◌≤◌, IfOk, IfErr, OnOk, Some, Option};
ghost use Rattle.flow_rules.specs.Tables.{rules_of_all};
ghost use Rattle.path_walk.specs.UserConfigs.{IsUserConfig};
ghost use Rattle.command_base.specs.declared.kinds.FileKind.{FileKind};
ghost use Rattle.command_base.specs.Names.{names_seen};
ghost use Rattle.command_base.specs.Updates.{meaning_of};
ghost use Rattle.command_base.specs.Dialogues.{FileRead, file_read, Gives, IsWhole};
ghost use Rattle.command_base.specs.Readings.{reading_update};
ghost use Rattle.command_base.specs.Replies.{EndsEarly};

use crate::exit::Exit;
use crate::kinds::FileKind;
use crate::names::UpdateNames;
use crate::readings::{read_configuration, read_policy, read_topology};
use demands::Demands;
use file_access::Source;
use flow_rules::Config;
use std::alloc::Global;
use topology::Net;

/// An update: a network, its old and new configuration, and the demands.
#[derive(Drop)]
pub struct UpdateFiles {
    pub net: Net,
    pub old: Config,
    pub new: Config,
    pub demands: Demands,
}

/// Fetches and reads the files of an update, in the order of their names.
///
/// # Errors
///
/// The early end at the first file that can't be read, is too long or is bad, with its line; or want of memory.
pub fn read_update<S: Source>(
    alloc: Global,
    source: &mut S,
    names: &UpdateNames<'_>,
) -> Result<UpdateFiles, Exit>
    ensures gives { IfOk result (λ v. (last : Option FileRead)
        → Gives (S.held source.old) last (reading_update (names_seen names.now)) (meaning_of v)
        (Some (file_read FileKind.Policy names.now.policy.now))) }
    ensures old_user { IfOk result (λ v. IsUserConfig v.net (rules_of_all v.old)) }
    ensures new_user { IfOk result (λ v. IsUserConfig v.net (rules_of_all v.new)) }
    ensures whole { OnOk result
        (IsWhole (Some (file_read FileKind.Policy names.now.policy.now)) (S.selected source.new)
        (S.taken source.new)) }
    ensures stops { IfErr result (λ e. (last : Option FileRead)
        → EndsEarly (S.held source.old) last (reading_update (names_seen names.now))
        (S.faults source.old) (S.faults source.new) e (S.selected source.new)
        (S.taken source.new)) }
    ensures held { S.held source.new ≡ S.held source.old }
    ensures later { S.faults source.old ≤ S.faults source.new }
{
    let net = read_topology(alloc, source, names.topology)?;
    // Each way out says `drop`: what a scope lets go by itself is proved part by part.
    let old = match read_configuration(alloc, source, FileKind::Old, &net, names.old) {
        Ok(old) => old,
        Err(exit) => {
            drop(net);
            return Err(exit);
        }
    };
    let new = match read_configuration(alloc, source, FileKind::New, &net, names.new) {
        Ok(new) => new,
        Err(exit) => {
            drop(old);
            drop(net);
            return Err(exit);
        }
    };
    let demands = match read_policy(alloc, source, &net, Some(names.policy)) {
        Ok(demands) => demands,
        Err(exit) => {
            drop(new);
            drop(old);
            drop(net);
            return Err(exit);
        }
    };
    Ok(UpdateFiles {
        net,
        old,
        new,
        demands,
    })
}
