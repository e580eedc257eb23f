//! The top call.
ghost use Rattle.std.specs.Prelude.{◌≡◌, ◌≢◌, ◌⊎◌, ◌↔◌, ◌≤◌, ℕ, None, Some, IfErr, map, string_bytes};
ghost use Rattle.std.specs.Io.KnownBytes.{Appends, Keeps};
ghost use Rattle.file_access.specs.Causes.{Rose};
ghost use Rattle.file_access.specs.Outside.{Files, AppendsFront, IsMissing};
ghost use Rattle.command_base.specs.Dialogues.{Lacks};
ghost use Rattle.command_base.specs.Replies.{Meets};
ghost use Rattle.command_base.specs.Runs.{IsComplete, EndsAs, AnswersAll, AnswersFront};
ghost use Rattle.check_base.specs.Checks.{check_dialogue};
ghost use Rattle.serve_command.specs.Serving.{IsServeEnd};
ghost use Rattle.serve_command.specs.Stops.{input_name};
ghost use Rattle.config_command.specs.Names.{ConfigNames};
ghost use Rattle.check_base.specs.Names.{CheckNames};
ghost use Rattle.command_base.specs.Names.{UpdateNames, PlanNames};
ghost use Rattle.pack_command.specs.Names.{PackNames};
ghost use Rattle.replay_command.specs.Names.{ReplayNames};
ghost use Rattle.trace_command.specs.Names.{TraceNames};
ghost use Rattle.simulate_command.specs.Names.{SimulateNames};
ghost use Rattle.import_command.specs.Names.{ImportNames};
ghost use Rattle.drive_command.specs.Names.{DriveNames};
ghost use Rattle.config_command.specs.Promise.{ConfigPromise};
ghost use Rattle.paths_command.specs.Promise.{PathsPromise};
ghost use Rattle.check_command.specs.Promise.{CheckPromise};
ghost use Rattle.certify_command.specs.Promise.{CertifyPromise};
ghost use Rattle.plan_command.specs.Promise.{PlanPromise};
ghost use Rattle.pack_command.specs.Promise.{PackPromise};
ghost use Rattle.upgrade_command.specs.Promise.{UpgradePromise};
ghost use Rattle.emit_command.specs.Promise.{EmitPromise};
ghost use Rattle.replay_command.specs.Promise.{ReplayPromise};
ghost use Rattle.tables_command.specs.Promise.{TablesPromise};
ghost use Rattle.trace_command.specs.Promise.{TracePromise};
ghost use Rattle.simulate_command.specs.Promise.{SimulatePromise};
ghost use Rattle.explain_command.specs.Promise.{ExplainPromise};
ghost use Rattle.import_command.specs.Promise.{ImportPromise};
ghost use Rattle.law_drive_promise.specs.Promise.{DriveWirePromise};
ghost use Rattle.law_serve_promise.specs.Promise.{ServePromise};
ghost use Rattle.sample_command.specs.Promise.{SamplePromise};
ghost use Rattle.planner_cli.specs.Commands.{Config, Paths, Check, Certify, Plan, Pack, Upgrade, Emit, Replay, Tables, Trace, Simulate, Explain, Import, Drive, Serve, Sample, AsksToServe, NamesNoFile, asked_command, asked_view, dialogue, dialogue_of, IsSaid, usage_line};

use crate::command::{Command, command_of};
use certify_command::certify;
use certify_command::laws::certify_promised;
use check_command::check;
use check_command::laws::check_promised;
use command_base::{Exit, Reply, Status};
use config_command::config;
use config_command::laws::config_promised;
use drive_command::drive;
use emit_command::emit;
use emit_command::laws::emit_promised;
use explain_command::explain;
use explain_command::laws::explain_promised;
use file_access::{Sink, Source, WriteFault, pour};
use import_command::import;
use import_command::laws::import_promised;
use law_drive_promise::laws::drive_promised;
use law_serve_promise::laws::serve_promised;
use pack_command::laws::pack_promised;
use pack_command::pack;
use paths_command::laws::paths_promised;
use paths_command::paths;
use plan_command::laws::plan_promised;
use plan_command::plan;
use replay_command::laws::replay_promised;
use replay_command::replay;
use sample_command::laws::sample_promised;
use sample_command::sample;
use serve_command::{SourceBeside, serve};
use simulate_command::laws::simulate_promised;
use simulate_command::simulate;
use std::alloc::Global;
use tables_command::laws::tables_promised;
use tables_command::tables;
use trace_command::laws::trace_promised;
use trace_command::trace;
use upgrade_command::laws::upgrade_promised;
use upgrade_command::upgrade;

const USAGE_LINE: &[u8] = b"unknown command or wrong words\n";

/// The reply to a command. One that names no file leaves the source as it is, so it has no fault of reading.
fn reply_to<S: Source>(alloc: Global, command: &Command<'_>, source: &mut S) -> Result<Reply, Exit>
    requires { ¬ AsksToServe (Some (asked_view command.now)) }
    ensures meets { Meets IsSaid (S.held source.old) (dialogue_of (asked_view command.now))
        (S.faults source.old) (S.faults source.new) result (S.selected source.new)
        (S.taken source.new) }
    ensures later { S.faults source.old ≤ S.faults source.new }
    ensures unread { NamesNoFile (Some (asked_view command.now)) → source.new ≡ source.old }
    ensures no_read_fault { NamesNoFile (Some (asked_view command.now))
        → IfErr result (λ e. e ≢ Exit.ReadFault) }
{
    match command {
        Command::Config(names) => config(alloc, source, names),
        Command::Paths(names) => paths(alloc, source, names),
        Command::Check(names) => check(alloc, source, names),
        Command::Certify(names) => certify(alloc, source, names),
        Command::Plan(names) => plan(alloc, source, names),
        Command::Pack(names) => pack(alloc, source, names),
        Command::Upgrade(names) => upgrade(alloc, source, names),
        Command::Emit(names) => emit(alloc, source, names),
        Command::Replay(names) => replay(alloc, source, names),
        Command::Tables(names) => tables(alloc, source, names),
        Command::Trace(names) => trace(alloc, source, names),
        Command::Simulate(names) => simulate(alloc, source, names),
        Command::Explain(names) => explain(alloc, source, names),
        Command::Import(names) => import(alloc, source, names),
        Command::Drive(names) => drive(alloc, source, names),
        Command::Serve(_) => unreachable!(),
        Command::Sample(size) => sample(alloc, *size),
    }
}

/// Writes an answer, whose status is no fault of writing, and says how the run ends.
fn write_answer<K: Sink>(sink: &mut K, status: Status, text: &[u8]) -> Status
    requires { status ≢ Status.WriteFault }
    ensures done { result ≡ Status.WriteFault
        ⊎ ((result ≡ status) × Appends (K.written sink.old) (K.written sink.new) text.now) }
    ensures front { result ≡ Status.WriteFault
        → AppendsFront (K.written sink.old) (K.written sink.new) text.now }
    ensures cause { result ≡ Status.WriteFault → Rose (K.faults sink.old) (K.faults sink.new) }
    ensures later { K.faults sink.old ≤ K.faults sink.new }
{
    match pour(sink, text) {
        Ok(()) => status,
        Err(WriteFault) => Status::WriteFault,
    }
}

/// Does what the words ask for, with the files of the source, and writes the text to the sink.
fn respond<S: SourceBeside<K>, K: Sink>(
    alloc: Global,
    words: &[String],
    source: &mut S,
    sink: &mut K,
) -> Status
    // The status and the text are where the dialogue of the words leads, unless a plan is to be served.
    ensures ends { ¬ AsksToServe (asked_command (map string_bytes words.now))
        → EndsAs IsSaid (S.held source.old) (dialogue (map string_bytes words.now))
        (K.written sink.old) (K.written sink.new) (S.selected source.new) (S.taken source.new)
        result }

    // Where the source tells, a settled run has the status and the whole text of the answer over its files.
    ensures all { ¬ AsksToServe (asked_command (map string_bytes words.now)) → IsComplete result
        → AnswersAll IsSaid (S.held source.old) (dialogue (map string_bytes words.now))
        (K.written sink.old) (K.written sink.new) result }
    ensures front { ¬ AsksToServe (asked_command (map string_bytes words.now))
        → result ≡ Status.WriteFault
        → AnswersFront IsSaid (S.held source.old) (dialogue (map string_bytes words.now))
        (K.written sink.old) (K.written sink.new) }
    ensures nothing { ¬ AsksToServe (asked_command (map string_bytes words.now))
        → (result ≡ Status.ReadFault) ⊎ (result ≡ Status.Memory)
        → Keeps (K.written sink.old) (K.written sink.new) }

    // Usage comes exactly for words that are none of the listed forms.
    ensures usage { IsComplete result
        → ((result ≡ Status.Usage) ↔ (asked_command (map string_bytes words.now) ≡ None)) }

    ensures read_fault { ¬ AsksToServe (asked_command (map string_bytes words.now))
        → result ≡ Status.ReadFault
        → Rose (S.faults source.old) (S.faults source.new)
        ⊎ Lacks (S.held source.old) (dialogue (map string_bytes words.now)) }
    ensures write_fault { result ≡ Status.WriteFault
        → Rose (K.faults sink.old) (K.faults sink.new) }

    // A plan that is served answers the lines of the standard input, one after the other.
    ensures serve { (names : CheckNames)
        → asked_command (map string_bytes words.now) ≡ Some (Serve names)
        → IsServeEnd (S.held source.old) names (K.written sink.old) (K.written sink.new)
        (S.selected source.new) (S.taken source.new) (S.takes source.new) result }
    ensures serve_fault { (names : CheckNames)
        → asked_command (map string_bytes words.now) ≡ Some (Serve names) → result
        ≡ Status.ReadFault
        → Rose (S.faults source.old) (S.faults source.new)
        ⊎ Lacks (S.held source.old) (check_dialogue names)
        ⊎ IsMissing (S.held source.old) input_name }

    // Words that name no file leave the source as it is.
    ensures unread { NamesNoFile (asked_command (map string_bytes words.now)) → source.new
        ≡ source.old }
    ensures no_read_fault { NamesNoFile (asked_command (map string_bytes words.now))
        → result ≢ Status.ReadFault }
{
    match command_of(words) {
        None => write_answer(sink, Status::Usage, USAGE_LINE),
        Some(Command::Serve(names)) => serve(alloc, source, sink, &names),
        Some(command) => match reply_to(alloc, &command, source) {
            Ok(reply) => write_answer(sink, reply.status, &reply.text),
            Err(Exit::Says(reply)) => write_answer(sink, reply.status, &reply.text),
            Err(Exit::ReadFault) => Status::ReadFault,
            Err(Exit::Memory) => Status::Memory,
        },
    }
}

/// Does what the words ask for, with the files of the source, and writes the text to the sink.
///
/// `words` are those after the program's name. The answer is built whole before any of it is written; `serve` alone answers line
/// by line.
pub fn run<S: SourceBeside<K>, K: Sink>(
    alloc: Global,
    words: &[String],
    source: &mut S,
    sink: &mut K,
) -> Status
    // The status and the text are where the dialogue of the words leads, unless a plan is to be served.
    ensures ends { ¬ AsksToServe (asked_command (map string_bytes words.now))
        → EndsAs IsSaid (S.held source.old) (dialogue (map string_bytes words.now))
        (K.written sink.old) (K.written sink.new) (S.selected source.new) (S.taken source.new)
        result }

    // Where the source tells, a settled run has the status and the whole text of the answer over its files.
    ensures all { ¬ AsksToServe (asked_command (map string_bytes words.now)) → IsComplete result
        → AnswersAll IsSaid (S.held source.old) (dialogue (map string_bytes words.now))
        (K.written sink.old) (K.written sink.new) result }
    ensures front { ¬ AsksToServe (asked_command (map string_bytes words.now))
        → result ≡ Status.WriteFault
        → AnswersFront IsSaid (S.held source.old) (dialogue (map string_bytes words.now))
        (K.written sink.old) (K.written sink.new) }
    ensures nothing { ¬ AsksToServe (asked_command (map string_bytes words.now))
        → (result ≡ Status.ReadFault) ⊎ (result ≡ Status.Memory)
        → Keeps (K.written sink.old) (K.written sink.new) }

    // Usage comes exactly for words that are none of the listed forms.
    ensures usage { IsComplete result
        → ((result ≡ Status.Usage) ↔ (asked_command (map string_bytes words.now) ≡ None)) }

    ensures read_fault { ¬ AsksToServe (asked_command (map string_bytes words.now))
        → result ≡ Status.ReadFault
        → Rose (S.faults source.old) (S.faults source.new)
        ⊎ Lacks (S.held source.old) (dialogue (map string_bytes words.now)) }
    ensures write_fault { result ≡ Status.WriteFault
        → Rose (K.faults sink.old) (K.faults sink.new) }

    // Over a source that tells, each command keeps its promise.
    ensures config { (files : Files) (names : ConfigNames) → S.held source.old ≡ Some files
        → asked_command (map string_bytes words.now) ≡ Some (Config names)
        → ConfigPromise files names (K.written sink.old) (K.written sink.new) result }
    ensures paths { (files : Files) (names : ConfigNames) → S.held source.old ≡ Some files
        → asked_command (map string_bytes words.now) ≡ Some (Paths names)
        → PathsPromise files names (K.written sink.old) (K.written sink.new) result }

    // The headline is the field `keeps` of this promise.
    ensures check { (files : Files) (names : CheckNames) → S.held source.old ≡ Some files
        → asked_command (map string_bytes words.now) ≡ Some (Check names)
        → CheckPromise files names (K.written sink.old) (K.written sink.new) result }
    ensures certify { (files : Files) (names : CheckNames) → S.held source.old ≡ Some files
        → asked_command (map string_bytes words.now) ≡ Some (Certify names)
        → CertifyPromise files names (K.written sink.old) (K.written sink.new) result }
    ensures plan { (files : Files) (names : UpdateNames) → S.held source.old ≡ Some files
        → asked_command (map string_bytes words.now) ≡ Some (Plan names)
        → PlanPromise files names (K.written sink.old) (K.written sink.new) result }
    ensures pack { (files : Files) (names : PackNames) → S.held source.old ≡ Some files
        → asked_command (map string_bytes words.now) ≡ Some (Pack names)
        → PackPromise files names (K.written sink.old) (K.written sink.new) result }
    ensures upgrade { (files : Files) (names : PlanNames) → S.held source.old ≡ Some files
        → asked_command (map string_bytes words.now) ≡ Some (Upgrade names)
        → UpgradePromise files names (K.written sink.old) (K.written sink.new) result }
    ensures emit { (files : Files) (names : PlanNames) → S.held source.old ≡ Some files
        → asked_command (map string_bytes words.now) ≡ Some (Emit names)
        → EmitPromise files names (K.written sink.old) (K.written sink.new) result }
    ensures replay { (files : Files) (names : ReplayNames) → S.held source.old ≡ Some files
        → asked_command (map string_bytes words.now) ≡ Some (Replay names)
        → ReplayPromise files names (K.written sink.old) (K.written sink.new) result }
    ensures tables { (files : Files) (names : ReplayNames) → S.held source.old ≡ Some files
        → asked_command (map string_bytes words.now) ≡ Some (Tables names)
        → TablesPromise files names (K.written sink.old) (K.written sink.new) result }
    ensures trace { (files : Files) (names : TraceNames) → S.held source.old ≡ Some files
        → asked_command (map string_bytes words.now) ≡ Some (Trace names)
        → TracePromise files names (K.written sink.old) (K.written sink.new) result }
    ensures simulate { (files : Files) (names : SimulateNames) → S.held source.old ≡ Some files
        → asked_command (map string_bytes words.now) ≡ Some (Simulate names)
        → SimulatePromise files names (K.written sink.old) (K.written sink.new) result }
    ensures explain { (files : Files) (names : CheckNames) → S.held source.old ≡ Some files
        → asked_command (map string_bytes words.now) ≡ Some (Explain names)
        → ExplainPromise files names (K.written sink.old) (K.written sink.new) result }
    ensures import { (files : Files) (names : ImportNames) → S.held source.old ≡ Some files
        → asked_command (map string_bytes words.now) ≡ Some (Import names)
        → ImportPromise files names (K.written sink.old) (K.written sink.new) result }
    ensures drive { (files : Files) (names : DriveNames) → S.held source.old ≡ Some files
        → asked_command (map string_bytes words.now) ≡ Some (Drive names)
        → DriveWirePromise files names (K.written sink.old) (K.written sink.new) result }

    // A plan that is served answers the lines of the standard input, one after the other.
    ensures serve { (names : CheckNames)
        → asked_command (map string_bytes words.now) ≡ Some (Serve names)
        → IsServeEnd (S.held source.old) names (K.written sink.old) (K.written sink.new)
        (S.selected source.new) (S.taken source.new) (S.takes source.new) result }
    ensures serve_fault { (names : CheckNames)
        → asked_command (map string_bytes words.now) ≡ Some (Serve names) → result
        ≡ Status.ReadFault
        → Rose (S.faults source.old) (S.faults source.new)
        ⊎ Lacks (S.held source.old) (check_dialogue names)
        ⊎ IsMissing (S.held source.old) input_name }

    // The second headline is the field `both_ways` of this promise.
    ensures serve_promise { (files : Files) (names : CheckNames) → S.held source.old ≡ Some files
        → asked_command (map string_bytes words.now) ≡ Some (Serve names)
        → ServePromise files names (K.written sink.old) (K.written sink.new) (S.taken source.new)
        (S.takes source.new) result }

    // Words that name no file leave the source as it is.
    ensures unread { NamesNoFile (asked_command (map string_bytes words.now)) → source.new
        ≡ source.old }

    // The promise of a command that reads no file holds over every source.
    ensures sample { (n : ℕ) → asked_command (map string_bytes words.now) ≡ Some (Sample n)
        → SamplePromise n (K.written sink.old) (K.written sink.new) result }
{
    config_promised();
    paths_promised();
    check_promised();
    certify_promised();
    plan_promised();
    pack_promised();
    upgrade_promised();
    emit_promised();
    replay_promised();
    tables_promised();
    trace_promised();
    simulate_promised();
    explain_promised();
    import_promised();
    drive_promised();
    serve_promised();
    sample_promised();
    respond(alloc, words, source, sink)
}
