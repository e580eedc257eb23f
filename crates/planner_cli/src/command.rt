//! The words of the command line.
ghost use Rattle.std.specs.Prelude.{◌≡◌, map, string_bytes, option_map};
ghost use Rattle.planner_cli.specs.Commands.{asked_command, asked_by, name_in, asked_view};

use check_base::{CheckNames, check_names};
use command_base::{PlanNames, UpdateNames, plan_names, update_names};
use config_command::{ConfigNames, config_names};
use drive_command::{DriveNames, drive_names};
use import_command::{ImportNames, import_names};
use pack_command::{PackNames, pack_names};
use replay_command::{ReplayNames, replay_names};
use sample_command::{RingSize, ring_size};
use simulate_command::{SimulateNames, simulate_names};
use trace_command::{TraceNames, trace_names};

/// A command, with the names of its files, or the number of switches of a sample.
#[derive(Clone, Copy)]
pub enum Command<'a> {
    Config(ConfigNames<'a>),
    Paths(ConfigNames<'a>),
    Check(CheckNames<'a>),
    Certify(CheckNames<'a>),
    Plan(UpdateNames<'a>),
    Pack(PackNames<'a>),
    Upgrade(PlanNames<'a>),
    Emit(PlanNames<'a>),
    Replay(ReplayNames<'a>),
    Tables(ReplayNames<'a>),
    Trace(TraceNames<'a>),
    Simulate(SimulateNames<'a>),
    Explain(CheckNames<'a>),
    Import(ImportNames<'a>),
    Drive(DriveNames<'a>),
    Serve(CheckNames<'a>),
    Sample(RingSize),
}

/// The name of a command.
#[derive(Clone, Copy, Debug, PartialEq, Eq)]
pub enum CommandName {
    Config,
    Paths,
    Check,
    Certify,
    Plan,
    Pack,
    Upgrade,
    Emit,
    Replay,
    Tables,
    Trace,
    Simulate,
    Explain,
    Import,
    Drive,
    Serve,
    Sample,
}

/// The command of a name, if it is that of one.
fn name_of(word: &str) -> Option<CommandName>
    ensures { result ≡ name_in word.now }
{
    match word {
        "config" => Some(CommandName::Config),
        "paths" => Some(CommandName::Paths),
        "check" => Some(CommandName::Check),
        "certify" => Some(CommandName::Certify),
        "plan" => Some(CommandName::Plan),
        "pack" => Some(CommandName::Pack),
        "upgrade" => Some(CommandName::Upgrade),
        "emit" => Some(CommandName::Emit),
        "replay" => Some(CommandName::Replay),
        "tables" => Some(CommandName::Tables),
        "trace" => Some(CommandName::Trace),
        "simulate" => Some(CommandName::Simulate),
        "explain" => Some(CommandName::Explain),
        "import" => Some(CommandName::Import),
        "drive" => Some(CommandName::Drive),
        "serve" => Some(CommandName::Serve),
        "sample" => Some(CommandName::Sample),
        _ => None,
    }
}

/// What the words after a command's name ask for; nothing where they are none of its forms.
fn asked_by(name: CommandName, words: &[String]) -> Option<Command<'_>>
    ensures { option_map asked_view result ≡ asked_by name (map string_bytes words.now) }
{
    match name {
        CommandName::Config => config_names(words).map(Command::Config),
        CommandName::Paths => config_names(words).map(Command::Paths),
        CommandName::Check => check_names(words).map(Command::Check),
        CommandName::Certify => check_names(words).map(Command::Certify),
        CommandName::Plan => update_names(words).map(Command::Plan),
        CommandName::Pack => pack_names(words).map(Command::Pack),
        CommandName::Upgrade => plan_names(words).map(Command::Upgrade),
        CommandName::Emit => plan_names(words).map(Command::Emit),
        CommandName::Replay => replay_names(words).map(Command::Replay),
        CommandName::Tables => replay_names(words).map(Command::Tables),
        CommandName::Trace => trace_names(words).map(Command::Trace),
        CommandName::Simulate => simulate_names(words).map(Command::Simulate),
        CommandName::Explain => check_names(words).map(Command::Explain),
        CommandName::Import => import_names(words).map(Command::Import),
        CommandName::Drive => drive_names(words).map(Command::Drive),
        CommandName::Serve => check_names(words).map(Command::Serve),
        CommandName::Sample => match ring_size(words) {
            Some(size) => Some(Command::Sample(size)),
            None => None,
        },
    }
}

/// What the words after the program's name ask for; nothing where they are none of the listed forms.
pub fn command_of(words: &[String]) -> Option<Command<'_>>
    ensures { option_map asked_view result ≡ asked_command (map string_bytes words.now) }
{
    let [name, rest @ ..] = words else {
        return None;
    };
    asked_by(name_of(name.as_str())?, rest)
}
