//! The command that serves a plan.
ghost use Rattle.std.specs.Prelude.{◌≡◌, ◌≢◌, ◌⊎◌, ◌≤◌, ℕ, List, Option};
ghost use Rattle.std.specs.Io.KnownBytes.{Appends};
ghost use Rattle.file_access.specs.Causes.{Rose};
ghost use Rattle.file_access.specs.Outside.{Files, AppendsFront, IsMissing};
ghost use Rattle.flow_rules.specs.Tables.{rules_of_all};
ghost use Rattle.path_walk.specs.UserConfigs.{IsUserConfig};
ghost use Rattle.certificates.specs.Certified.{IsCertified};
ghost use Rattle.certificates.specs.Valid.{IsValidPlan};
ghost use Rattle.two_way_driver.specs.Calls.{AreTurnable};
ghost use Rattle.command_base.specs.Dialogues.{Dialogue, Lacks};
ghost use Rattle.command_base.specs.Replies.{answer_of, EndsEarly};
ghost use Rattle.command_base.specs.Runs.{EndsAs};
ghost use Rattle.check_base.specs.Checks.{CheckMeaning, check_dialogue, task_in};
ghost use Rattle.check_base.specs.Names.{names_seen};
ghost use Rattle.serve_command.specs.Served.{served_text};
ghost use Rattle.serve_command.specs.Serving.{meaning_of, text_on, SaysRefusal, EndsRefused, Serves, IsServeEnd};
ghost use Rattle.serve_command.specs.Stops.{EndsServing, input_name};

use crate::beside::SourceBeside;
use crate::greeting::serve_desk;
use crate::lines::Desk;
use crate::served_update::ServedUpdate;
use check_base::{CheckFiles, CheckNames, read_check_files};
use command_base::{Exit, Reply, Status};
use file_access::{Sink, WriteFault, pour};
use net_base::Memory;
use plan_verdict::refusal_reply;
use round_inverses::inverse_rounds;
use round_inverses::laws::{
    each_takes_its_round_back, good_rounds_are_good_in_turn, inverses_are_in_range,
};
use schedule_pilot::laws::certified_begins_safely;
use serve_lines::OpenLine;
use std::alloc::Global;
use two_way_driver::Driver;
use update_model::Rounds;

/// Writes a reply, and says how the run ends.
fn write_reply<K: Sink>(sink: &mut K, reply: &Reply) -> Status
    ensures done { result ≡ Status.WriteFault
        ⊎ ((result ≡ reply.now.status)
        × Appends (K.written sink.old) (K.written sink.new) reply.now.text.items) }
    ensures front { result ≡ Status.WriteFault
        → AppendsFront (K.written sink.old) (K.written sink.new) reply.now.text.items }
    ensures usage { result ≢ Status.Usage }
    ensures cause { result ≡ Status.WriteFault → Rose (K.faults sink.old) (K.faults sink.new) }
    ensures later { K.faults sink.old ≤ K.faults sink.new }
{
    match pour(sink, &reply.text) {
        Ok(()) => reply.status,
        Err(WriteFault) => Status::WriteFault,
    }
}

/// Says how a run ends early.
fn write_exit<K: Sink>(sink: &mut K, exit: Exit) -> Status
    ensures ends { (held : Option Files) (dialogue : Dialogue CheckMeaning) (before now : ℕ)
        (selected : List ℕ) (taken : ℕ)
        → EndsEarly held None dialogue before now exit selected taken
        → EndsAs SaysRefusal held dialogue (K.written sink.old) (K.written sink.new) selected taken
        result }
    ensures usage { result ≢ Status.Usage }
    ensures read_fault { result ≡ Status.ReadFault → exit ≡ Exit.ReadFault }
    ensures write_fault { result ≡ Status.WriteFault
        → Rose (K.faults sink.old) (K.faults sink.new) }
    ensures later { K.faults sink.old ≤ K.faults sink.new }
{
    match exit {
        Exit::Says(reply) => {
            let status = write_reply(sink, &reply);
            drop(reply);
            status
        }
        Exit::ReadFault => Status::ReadFault,
        Exit::Memory => Status::Memory,
    }
}

/// Serves the driver of rounds that can be taken back.
fn serve_both_ways<S: SourceBeside<K>, K: Sink>(
    alloc: Global,
    source: &mut S,
    sink: &mut K,
    files: &CheckFiles,
    inverses: &Rounds,
) -> Status
    requires { AreTurnable files.now.update.net files.now.plan.rounds inverses.now }
    ensures ends { EndsServing
        (served_text files.now.update.net files.now.plan.rounds inverses.now)
        (S.held source.old) (K.written sink.old) (K.written sink.new) (S.taken source.new)
        (S.takes source.new) result }
    ensures held { S.held source.new ≡ S.held source.old }
    ensures read_fault { result ≡ Status.ReadFault
        → Rose (S.faults source.old) (S.faults source.new)
        ⊎ IsMissing (S.held source.old) input_name }
    ensures write_fault { result ≡ Status.WriteFault
        → Rose (K.faults sink.old) (K.faults sink.new) }
    ensures later_source { S.faults source.old ≤ S.faults source.new }
    ensures later_sink { K.faults sink.old ≤ K.faults sink.new }
{
    match Driver::make(alloc, &files.update.net, &files.plan.rounds, inverses) {
        Ok(driver) => {
            let update = ServedUpdate {
                alloc,
                net: &files.update.net,
                rounds: files.plan.rounds.count(),
            };
            let mut desk = Desk {
                driver,
                line: OpenLine::make(alloc),
            };
            let status = serve_desk(&update, &mut desk, source, sink);
            drop(desk);
            status
        }
        Err(Memory) => Status::Memory,
    }
}

/// Serves the driver of a certified plan.
fn serve_certified<S: SourceBeside<K>, K: Sink>(
    alloc: Global,
    source: &mut S,
    sink: &mut K,
    files: &CheckFiles,
) -> Status
    requires old { IsUserConfig files.now.update.net (rules_of_all files.now.update.old) }
    requires new { IsUserConfig files.now.update.net (rules_of_all files.now.update.new) }
    requires valid { IsValidPlan files.now.update.net files.now.plan }
    requires certified { IsCertified (task_in (meaning_of files.now)) files.now.plan.evidence }
    ensures ends { EndsServing (text_on (meaning_of files.now)) (S.held source.old)
        (K.written sink.old) (K.written sink.new) (S.taken source.new) (S.takes source.new)
        result }
    ensures held { S.held source.new ≡ S.held source.old }
    ensures read_fault { result ≡ Status.ReadFault
        → Rose (S.faults source.old) (S.faults source.new)
        ⊎ IsMissing (S.held source.old) input_name }
    ensures write_fault { result ≡ Status.WriteFault
        → Rose (K.faults sink.old) (K.faults sink.new) }
    ensures later_source { S.faults source.old ≤ S.faults source.new }
    ensures later_sink { K.faults sink.old ≤ K.faults sink.new }
{
    let update = &files.update;
    update.net.keeps_rules();
    certified_begins_safely(
        &update.net,
        &update.old,
        &update.new,
        &update.demands,
        &files.plan,
    );
    good_rounds_are_good_in_turn();
    each_takes_its_round_back();
    inverses_are_in_range();
    match inverse_rounds(alloc, &update.old, &files.plan.rounds) {
        Ok(inverses) => {
            let status = serve_both_ways(alloc, source, sink, files, &inverses);
            drop(inverses);
            status
        }
        Err(Memory) => Status::Memory,
    }
}

/// Serves the driver of a plan, where it is certified, or says why it isn't.
fn serve_files<S: SourceBeside<K>, K: Sink>(
    alloc: Global,
    source: &mut S,
    sink: &mut K,
    files: &CheckFiles,
) -> Status
    requires old { IsUserConfig files.now.update.net (rules_of_all files.now.update.old) }
    requires new { IsUserConfig files.now.update.net (rules_of_all files.now.update.new) }
    requires valid { IsValidPlan files.now.update.net files.now.plan }
    ensures ends { ((source.new ≡ source.old)
        × EndsRefused (meaning_of files.now) (K.written sink.old) (K.written sink.new) result)
        ⊎ Serves (meaning_of files.now) (S.held source.old) (K.written sink.old)
        (K.written sink.new) (S.taken source.new) (S.takes source.new) result }
    ensures usage { result ≢ Status.Usage }
    ensures held { S.held source.new ≡ S.held source.old }
    ensures read_fault { result ≡ Status.ReadFault
        → Rose (S.faults source.old) (S.faults source.new)
        ⊎ IsMissing (S.held source.old) input_name }
    ensures write_fault { result ≡ Status.WriteFault
        → Rose (K.faults sink.old) (K.faults sink.new) }
    ensures later_source { S.faults source.old ≤ S.faults source.new }
    ensures later_sink { K.faults sink.old ≤ K.faults sink.new }
{
    match refusal_reply(alloc, &files.update, &files.plan) {
        Ok(None) => serve_certified(alloc, source, sink, files),
        Ok(Some(reply)) => {
            let status = write_reply(sink, &reply);
            drop(reply);
            status
        }
        Err(Memory) => Status::Memory,
    }
}

/// Serves the driver of a plan of an update: writes the block of line 0, and then takes the lines of the standard input one
/// after the other, and writes the block of each one, whole, before it takes the next. Where the plan isn't certified, or a file
/// isn't read, it says what `check` says.
///
/// It ends at the end of the input. Where memory is wanting nothing is written for the line, and it ends; so it does where
/// reading or writing fails. The memory is that of the files, of one line with its block, and of the unread bytes of each
/// session, however many lines come.
pub fn serve<S: SourceBeside<K>, K: Sink>(
    alloc: Global,
    source: &mut S,
    sink: &mut K,
    names: &CheckNames<'_>,
) -> Status
    ensures ends { IsServeEnd (S.held source.old) (names_seen names.now) (K.written sink.old)
        (K.written sink.new) (S.selected source.new) (S.taken source.new) (S.takes source.new)
        result }
    ensures usage { result ≢ Status.Usage }
    ensures held { S.held source.new ≡ S.held source.old }
    ensures read_fault { result ≡ Status.ReadFault
        → Rose (S.faults source.old) (S.faults source.new)
        ⊎ (Lacks (S.held source.old) (check_dialogue (names_seen names.now))
        ⊎ IsMissing (S.held source.old) input_name) }
    ensures write_fault { result ≡ Status.WriteFault
        → Rose (K.faults sink.old) (K.faults sink.new) }
    ensures later_source { S.faults source.old ≤ S.faults source.new }
    ensures later_sink { K.faults sink.old ≤ K.faults sink.new }
{
    match read_check_files(alloc, source, names) {
        Ok(files) => {
            let status = serve_files(alloc, source, sink, &files);
            drop(files);
            status
        }
        Err(exit) => write_exit(sink, exit),
    }
}
