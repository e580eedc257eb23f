//! The input that a line spells: `start`, or `feed`, the name of a switch and bytes in hexadecimal digits.
ghost use Rattle.std.specs.Prelude.{◌≡◌, IfOk};
ghost use Rattle.net_base.specs.Reading.{Gives};
ghost use Rattle.driver_input.specs.declared.fault.InputFault.TheVariants.{Memory};
ghost use Rattle.driver_input.specs.Lines as lines;

use crate::fault::InputFault;
use crate::inputs::{Input, Piece};
use net_base::cut_first;
use std::alloc::Global;
use text_lines::read_digits;
use topology::Net;

/// Reads a switch's name and a piece.
#[tactic(auto, unfolding(crate::specs::Lines::fed_in))]
fn read_fed(alloc: Global, net: &Net, number: u32, text: &str) -> Result<Input, InputFault>
    ensures read { Gives Memory (λ i. i) result (lines.fed_in net.now number text.now) }
    ensures within { IfOk result (lines.IsInput net.now) }
{
    let (name, digits) = cut_first(text, ' ').ok_or(InputFault::BadLine(number))?;
    let switch = net.find(name).ok_or(InputFault::BadLine(number))?;
    let bytes = read_digits(alloc, digits)?.ok_or(InputFault::BadLine(number))?;
    Ok(Input::Feed(switch, Piece::make(bytes)))
}

/// Reads the input of a word with what stands behind it.
#[tactic(auto, unfolding(crate::specs::Lines::worded_in))]
fn read_worded(alloc: Global, net: &Net, number: u32, text: &str) -> Result<Input, InputFault>
    ensures read { Gives Memory (λ i. i) result (lines.worded_in net.now number text.now) }
    ensures within { IfOk result (lines.IsInput net.now) }
{
    let (word, rest) = cut_first(text, ' ').ok_or(InputFault::BadLine(number))?;
    if word == "feed" {
        return read_fed(alloc, net, number, rest);
    }
    Err(InputFault::BadLine(number))
}

/// Reads a line that is text.
fn read_text(alloc: Global, net: &Net, number: u32, text: &str) -> Result<Input, InputFault>
    ensures read { Gives Memory (λ i. i) result (lines.text_in net.now number text.now) }
    ensures within { IfOk result (lines.IsInput net.now) }
{
    if text == "start" {
        return Ok(Input::Start);
    }
    read_worded(alloc, net, number, text)
}

/// Reads a line that is no comment.
pub fn read_line_input(
    alloc: Global,
    net: &Net,
    number: u32,
    line: &[u8],
) -> Result<Input, InputFault>
    ensures read { Gives Memory (λ i. i) result (lines.input_in net.now number line.now) }
    ensures within { IfOk result (lines.IsInput net.now) }
{
    match str::from_utf8(line) {
        Ok(text) => read_text(alloc, net, number, text),
        Err(_) => Err(InputFault::BadLine(number)),
    }
}
