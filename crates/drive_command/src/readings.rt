//! Inputs, fetched and read.
ghost use Rattle.std.specs.Prelude.{◌≡◌, ◌≤◌, IfOk, IfErr, OnOk, Ok, Some, Option};
ghost use Rattle.driver_input.specs.Inputs.{inputs_in, AreInputs};
ghost use Rattle.command_base.specs.declared.kinds.FileKind.TheVariants as «kind»;
ghost use Rattle.command_base.specs.Dialogues.{FileRead, file_read, Gives, IsWhole};
ghost use Rattle.command_base.specs.Replies.{words_of, IsBad, EndsEarly};
ghost use Rattle.drive_command.specs.Driven.{reading_input, input_words};

use command_base::{Exit, Fault, FileKind, bad_reply, fetch_file};
use driver_input::{InputFault, Inputs, read_input};
use file_access::Source;
use std::alloc::Global;
use topology::Net;

/// What is printed of a fault of inputs.
fn input_fault(fault: InputFault) -> Fault
    ensures { words_of result ≡ input_words fault }
{
    Fault {
        number: fault.number(),
        name: fault.name(),
        field: None,
        place: fault.place(),
    }
}

/// The inputs that the bytes mean.
fn inputs_of(alloc: Global, net: &Net, bytes: &[u8]) -> Result<Inputs, Exit>
    ensures ok { IfOk result (λ s. inputs_in net.now bytes.now ≡ Ok s) }
    ensures within { IfOk result (AreInputs net.now) }
    ensures bad { IfErr result
        (λ e. IsBad FileKind.Input input_words (inputs_in net.now bytes.now) e) }
{
    match read_input(alloc, net, bytes) {
        Ok(inputs) => Ok(inputs),
        Err(InputFault::Memory) => Err(Exit::Memory),
        Err(fault) => Err(Exit::Says(bad_reply(alloc, FileKind::Input, input_fault(fault))?)),
    }
}

/// Fetches and reads inputs for the network.
///
/// # Errors
///
/// `ReadFault` where the source failed or doesn't hold the file; `Says` the line on a bad file; `Memory`.
pub fn read_input_file<S: Source>(
    alloc: Global,
    source: &mut S,
    net: &Net,
    name: &str,
) -> Result<Inputs, Exit>
    ensures gives { IfOk result (λ v. (last : Option FileRead)
        → Gives (S.held source.old) last (reading_input net.now name.now) v
        (Some (file_read FileKind.Input name.now))) }
    ensures within { IfOk result (AreInputs net.now) }
    ensures whole { OnOk result
        (IsWhole (Some (file_read FileKind.Input name.now)) (S.selected source.new)
        (S.taken source.new)) }
    ensures stops { IfErr result (λ e. (last : Option FileRead)
        → EndsEarly (S.held source.old) last (reading_input net.now name.now) (S.faults source.old)
        (S.faults source.new) e (S.selected source.new) (S.taken source.new)) }
    ensures held { S.held source.new ≡ S.held source.old }
    ensures later { S.faults source.old ≤ S.faults source.new }
{
    let bytes = fetch_file(alloc, source, FileKind::Input, name)?;
    inputs_of(alloc, net, &bytes)
}
