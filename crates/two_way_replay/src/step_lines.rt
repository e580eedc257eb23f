//! The step that a line of a schedule spells.
ghost use Rattle.std.specs.Prelude.{◌≡◌};
ghost use Rattle.two_way_replay.specs.StepLines as spelled;

use crate::schedule::TwoWayStep;
use net_base::{cut_first, read_decimal};
use schedule_replay::read_event;
use topology::Net;

const MAX_CHANGE: u64 = 4_294_967_295;

/// Reads the number of a change that is taken back, behind `undo` and a space.
#[tactic(auto, unfolding(crate::specs::StepLines::undo_in))]
fn read_undo(text: &str) -> Option<TwoWayStep>
    ensures { result ≡ spelled.undo_in text.now }
{
    let (word, rest) = cut_first(text, ' ')?;
    if word != "undo" {
        return None;
    }
    let change = read_decimal(rest, MAX_CHANGE)?;
    Some(TwoWayStep::Undo(change as usize))
}

/// Reads `back`, or `undo` with a number.
fn read_turn_text(text: &str) -> Option<TwoWayStep>
    ensures { result ≡ spelled.spelled_turn text.now }
{
    match text {
        "back" => Some(TwoWayStep::Back),
        _ => read_undo(text),
    }
}

/// Reads a line with a word that runs which are never turned back don't have.
fn read_turn(line: &[u8]) -> Option<TwoWayStep>
    ensures { result ≡ spelled.turn_in line.now }
{
    match str::from_utf8(line) {
        Ok(text) => read_turn_text(text),
        Err(_) => None,
    }
}

/// Reads the step that a line spells.
pub(crate) fn read_step(net: &Net, line: &[u8]) -> Option<TwoWayStep>
    ensures { result ≡ spelled.step_in net.now line.now }
{
    match read_event(net, line) {
        Some(event) => Some(TwoWayStep::Event(event)),
        None => read_turn(line),
    }
}
