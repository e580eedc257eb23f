//! The command that drives a plan.
ghost use Rattle.std.specs.Prelude.{◌≡◌, ◌≤◌, IfOk, IfErr, Option};
ghost use Rattle.flow_rules.specs.Tables.{rules_of_all};
ghost use Rattle.path_walk.specs.UserConfigs.{IsUserConfig};
ghost use Rattle.certificates.specs.Valid.{IsValidPlan};
ghost use Rattle.driver_input.specs.Inputs.{AreInputs};
ghost use Rattle.command_base.specs.Dialogues.{FileRead, LeadsTo};
ghost use Rattle.command_base.specs.Replies.{answer_of, EndsEarly, Meets};
ghost use Rattle.check_base.specs.Checks.{check_meaning_of};
ghost use Rattle.drive_command.specs.Names.{names_seen};
ghost use Rattle.drive_command.specs.Driven.{drive_dialogue, reading_inputs_for, IsDriveAnswer};

use crate::names::DriveNames;
use crate::readings::read_input_file;
use crate::verdict::drive_verdict;
use check_base::{CheckFiles, read_check_files};
use command_base::{Exit, Reply};
use driver_input::Inputs;
use file_access::Source;
use std::alloc::Global;

/// What is said of a plan and its inputs, as the end of the command.
fn say_driven(alloc: Global, files: &CheckFiles, inputs: &Inputs) -> Result<Reply, Exit>
    requires old { IsUserConfig files.now.update.net (rules_of_all files.now.update.old) }
    requires new { IsUserConfig files.now.update.net (rules_of_all files.now.update.new) }
    requires valid { IsValidPlan files.now.update.net files.now.plan }
    requires inputs { AreInputs files.now.update.net inputs.now }
    ensures said { IfOk result
        (λ r. IsDriveAnswer (record { check = check_meaning_of files.now; inputs = inputs.now })
        (answer_of r)) }
    ensures stops { IfErr result (λ e. e ≡ Exit.Memory) }
{
    Ok(drive_verdict(alloc, &files.update, &files.plan, inputs)?)
}

/// Fetches the inputs, and gives them to the driver of the plan.
fn drive_inputs<S: Source>(
    alloc: Global,
    source: &mut S,
    files: &CheckFiles,
    name: &str,
) -> Result<Reply, Exit>
    requires old { IsUserConfig files.now.update.net (rules_of_all files.now.update.old) }
    requires new { IsUserConfig files.now.update.net (rules_of_all files.now.update.new) }
    requires valid { IsValidPlan files.now.update.net files.now.plan }
    ensures leads { IfOk result (λ r. (last : Option FileRead)
        → LeadsTo IsDriveAnswer (S.held source.old) last
        (reading_inputs_for (check_meaning_of files.now) name.now) (answer_of r)
        (S.selected source.new) (S.taken source.new)) }
    ensures stops { IfErr result (λ e. (last : Option FileRead)
        → EndsEarly (S.held source.old) last
        (reading_inputs_for (check_meaning_of files.now) name.now) (S.faults source.old)
        (S.faults source.new) e (S.selected source.new) (S.taken source.new)) }
    ensures held { S.held source.new ≡ S.held source.old }
    ensures later { S.faults source.old ≤ S.faults source.new }
{
    let inputs = read_input_file(alloc, source, &files.update.net, name)?;
    let reply = say_driven(alloc, files, &inputs);
    drop(inputs);
    reply
}

/// Gives the driver of a certified plan the inputs of a file, and writes the report on it; or names the first start that is
/// refused; or says why the plan isn't certified.
pub fn drive<S: Source>(
    alloc: Global,
    source: &mut S,
    names: &DriveNames<'_>,
) -> Result<Reply, Exit>
    ensures meets { Meets IsDriveAnswer (S.held source.old) (drive_dialogue (names_seen names.now))
        (S.faults source.old) (S.faults source.new) result (S.selected source.new)
        (S.taken source.new) }
    ensures held { S.held source.new ≡ S.held source.old }
    ensures later { S.faults source.old ≤ S.faults source.new }
{
    let files = read_check_files(alloc, source, &names.check)?;
    let reply = drive_inputs(alloc, source, &files, names.input);
    drop(files);
    reply
}
