//! Whether both ends of an update are good: whether its old and its new configuration have good paths for all classes.
ghost use Rattle.std.specs.Prelude.{IfOk, IfErr};
ghost use Rattle.flow_rules.specs.Tables.{rules_of_all};
ghost use Rattle.path_walk.specs.UserConfigs.{IsUserConfig};
ghost use Rattle.dest_classes.specs.Numbered.{IsCauseOf};
ghost use Rattle.config_check.specs.Classed.{AreClassed};
ghost use Rattle.round_planner.specs.Updates.{update_classes};
ghost use Rattle.command_base.specs.Updates.{meaning_of};
ghost use Rattle.command_base.specs.Replies.{answer_of};
ghost use Rattle.plan_command.specs.Ends.{IsBrokenEnd, IsEndsRefusal, IsVerdictOnEnds};

use check_base::refused_reply;
use check_reasons::Reason;
use command_base::{Reply, UpdateFiles};
use config_check::{Classed, EndBreak, first_end_break};
use dest_classes::{Class, ClassFault};
use net_base::Memory;
use path_walk::PathRoom;
use round_planner::update_prefixes;
use std::alloc::Global;

/// The verdict on both ends of an update: they are good, with the classes of the update and their duties; or one isn't, with the
/// first break and its class.
#[derive(Drop)]
pub enum EndsVerdict {
    Good(Classed),
    Broken(EndBreak, Class),
}

/// The reply on the first break of an end, and its class.
pub fn break_reply(
    alloc: Global,
    files: &UpdateFiles,
    end: EndBreak,
    class: Class,
) -> Result<Reply, Memory>
    requires { IsBrokenEnd (meaning_of files.now) end class }
    ensures { IfOk result (λ r. IsEndsRefusal (meaning_of files.now) (answer_of r)) }
{
    refused_reply(alloc, &files.net, Some(class), Reason::of_end(end))
}

/// The verdict on both ends over few enough classes.
fn judge_classes(
    alloc: Global,
    files: &UpdateFiles,
    classed: Classed,
) -> Result<EndsVerdict, Memory>
    requires old { IsUserConfig files.now.net (rules_of_all files.now.old) }
    requires new { IsUserConfig files.now.net (rules_of_all files.now.new) }
    requires classed { AreClassed (update_classes (meaning_of files.now)) files.now.demands
        classed }
    ensures { IfOk result (IsVerdictOnEnds (meaning_of files.now)) }
{
    let mut room = PathRoom::make(alloc, &files.net)?;
    let end = first_end_break(
        &files.net,
        &files.old,
        &files.new,
        &classed.duties,
        &classed.map,
        &mut room,
    );
    drop(room);
    match end {
        Some(end) => {
            let class = classed.map.class(end.breaks.class);
            drop(classed);
            Ok(EndsVerdict::Broken(end, class))
        }
        None => Ok(EndsVerdict::Good(classed)),
    }
}

/// The verdict on both ends of an update: where one isn't good, the first break of the old configuration, or else of the new one.
///
/// # Errors
///
/// `TooManyClasses` with their number where there are more than 8192; `Memory`.
pub fn judge_ends(alloc: Global, files: &UpdateFiles) -> Result<EndsVerdict, ClassFault>
    requires old { IsUserConfig files.now.net (rules_of_all files.now.old) }
    requires new { IsUserConfig files.now.net (rules_of_all files.now.new) }
    ensures verdict { IfOk result (IsVerdictOnEnds (meaning_of files.now)) }
    ensures none { IfErr result (IsCauseOf (update_classes (meaning_of files.now))) }
{
    let prefixes = update_prefixes(&files.old, &files.new, &files.demands)?;
    let classed = Classed::make(alloc, &files.net, &files.demands, &prefixes)?;
    Ok(judge_classes(alloc, files, classed)?)
}
