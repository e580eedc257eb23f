//! The command that says what the switches have after a recorded schedule, which may turn rounds back.
ghost use Rattle.std.specs.Prelude.{◌≡◌, ◌≤◌, IfOk, IfErr};
ghost use Rattle.flow_rules.specs.Tables.{rules_of_all};
ghost use Rattle.path_walk.specs.UserConfigs.{IsUserConfig};
ghost use Rattle.certificates.specs.Valid.{IsValidPlan};
ghost use Rattle.command_base.specs.Replies.{answer_of, Meets};
ghost use Rattle.replay_command.specs.Names.{names_seen};
ghost use Rattle.tables_command.specs.Listed.{IsTablesAnswer};
ghost use Rattle.tables_command.specs.Tabled.{meaning_of, tables_dialogue};

use crate::files::{TablesFiles, read_tables_files};
use crate::replying::tables_reply;
use command_base::{Exit, Reply};
use file_access::Source;
use replay_command::ReplayNames;
use std::alloc::Global;

/// What is said of the tables, as the end of the command.
fn say_tables(alloc: Global, files: &TablesFiles) -> Result<Reply, Exit>
    requires user { IsUserConfig files.now.net (rules_of_all files.now.old) }
    requires valid { IsValidPlan files.now.net files.now.plan }
    ensures said { IfOk result (λ r. IsTablesAnswer (meaning_of files.now) (answer_of r)) }
    ensures stops { IfErr result (λ e. e ≡ Exit.Memory) }
{
    Ok(tables_reply(alloc, files)?)
}

/// Carries out a recorded schedule, which may turn rounds back, and writes the rules that the switches then have and the changes
/// that may have been made besides; or the line of the first step that can't happen.
pub fn tables<S: Source>(
    alloc: Global,
    source: &mut S,
    names: &ReplayNames<'_>,
) -> Result<Reply, Exit>
    ensures meets { Meets IsTablesAnswer (S.held source.old)
        (tables_dialogue (names_seen names.now)) (S.faults source.old) (S.faults source.new) result
        (S.selected source.new) (S.taken source.new) }
    ensures held { S.held source.new ≡ S.held source.old }
    ensures later { S.faults source.old ≤ S.faults source.new }
{
    let files = read_tables_files(alloc, source, names)?;
    let reply = say_tables(alloc, &files);
    drop(files);
    reply
}
