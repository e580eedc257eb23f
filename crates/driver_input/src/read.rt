//! The reader of a file of inputs.
ghost use Rattle.std.specs.Prelude.{◌≡◌, Ok, OnOk, IfOk, MatchResult};
ghost use Rattle.net_base.specs.Reading.{Gives, Fails};
ghost use Rattle.driver_input.specs.declared.fault.InputFault.TheVariants.{Memory};
ghost use Rattle.driver_input.specs.Inputs as files;

use crate::fault::InputFault;
use crate::inputs::{InputLine, Inputs};
use crate::lines::read_line_input;
use net_base::{is_comment, place_of};
use std::alloc::Global;
use topology::Net;

const MAX_INPUTS: usize = 1_000_000;

/// Reads a line, which may be a comment.
#[tactic(auto, unfolding(crate::specs::Inputs::input_at))]
fn read_line(
    alloc: Global,
    net: &Net,
    inputs: &mut Inputs,
    number: u32,
    line: &[u8],
) -> Result<(), InputFault>
    requires { files.AreInputs net.now inputs.old }
    ensures read { let read = files.line_at net.now number inputs.old line.now in
        MatchResult result (λ _. read ≡ Ok inputs.new) (λ e. Fails Memory e read) }
    ensures kept { OnOk result (files.AreInputs net.now inputs.new) }
{
    if is_comment(line) {
        return Ok(());
    }
    let input = read_line_input(alloc, net, number, line)?;
    if inputs.list().len() >= MAX_INPUTS {
        return Err(InputFault::TooMany);
    }
    inputs.add(InputLine {
        line: number,
        input,
    })?;
    Ok(())
}

/// Reads the inputs of a file, each with the number of its line, from 1: `start` begins the next round, and
/// `feed SWITCH HEX` brings bytes from a switch, an even number of at least two hexadecimal digits of either case. Lines end
/// with byte 0a, which the last may lack; a line that is empty or begins with `#` is a comment. The first line that isn't one
/// of these, or names no switch of the network, is the refusal, or the 1,000,001st input where it comes earlier. Whether a
/// start is allowed is a matter of the driver.
///
/// The cost is that of one pass over the bytes. Only those of the pieces are kept.
pub fn read_input(alloc: Global, net: &Net, bytes: &[u8]) -> Result<Inputs, InputFault>
    ensures read { Gives Memory (λ s. s) result (files.inputs_in net.now bytes.now) }
    ensures within { IfOk result (files.AreInputs net.now) }
{
    let mut inputs = Inputs::of(Vec::new(alloc));
    for (i, line) in bytes.split(|b| *b == b'\n').enumerate() {
        read_line(alloc, net, &mut inputs, place_of(i + 1), line)?;
    }
    Ok(inputs)
}
