//! The command that simulates a plan.
ghost use Rattle.std.specs.Prelude.{◌≡◌, ◌≤◌, IfOk, IfErr};
ghost use Rattle.flow_rules.specs.Tables.{rules_of_all};
ghost use Rattle.path_walk.specs.UserConfigs.{IsUserConfig};
ghost use Rattle.certificates.specs.Valid.{IsValidPlan};
ghost use Rattle.command_base.specs.Replies.{answer_of, Meets};
ghost use Rattle.check_base.specs.Names as files;
ghost use Rattle.check_base.specs.Checks.{check_dialogue, check_meaning_of};
ghost use Rattle.simulate_command.specs.Simulated.{IsSimulateAnswer};

use crate::names::SimulateNames;
use crate::verdict::simulation_verdict;
use check_base::{CheckFiles, read_check_files};
use command_base::{Exit, Reply};
use file_access::Source;
use std::alloc::Global;

/// What is said of a plan that is simulated, as the end of the command.
fn say_simulation(
    alloc: Global,
    files: &CheckFiles,
    names: &SimulateNames<'_>,
) -> Result<Reply, Exit>
    requires old { IsUserConfig files.now.update.net (rules_of_all files.now.update.old) }
    requires new { IsUserConfig files.now.update.net (rules_of_all files.now.update.new) }
    requires valid { IsValidPlan files.now.update.net files.now.plan }
    ensures said { IfOk result
        (λ r. IsSimulateAnswer names.now.start names.now.count
        (check_meaning_of files.now) (answer_of r)) }
    ensures stops { IfErr result (λ e. e ≡ Exit.Memory) }
{
    Ok(simulation_verdict(alloc, &files.update, &files.plan, names)?)
}

/// Drives a run of a certified plan to its end, and writes its schedule and the traces of its packets; or says why the plan
/// isn't certified.
pub fn simulate<S: Source>(
    alloc: Global,
    source: &mut S,
    names: &SimulateNames<'_>,
) -> Result<Reply, Exit>
    ensures meets { Meets (IsSimulateAnswer names.now.start names.now.count) (S.held source.old)
        (check_dialogue (files.names_seen names.now.check))
        (S.faults source.old) (S.faults source.new) result (S.selected source.new)
        (S.taken source.new) }
    ensures held { S.held source.new ≡ S.held source.old }
    ensures later { S.faults source.old ≤ S.faults source.new }
{
    let files = read_check_files(alloc, source, &names.check)?;
    let reply = say_simulation(alloc, &files, names);
    drop(files);
    reply
}
