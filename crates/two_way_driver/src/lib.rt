//! The core of a controller that can turn back: it carries rounds out, takes them back, and opens sessions again. It has no
//! connections and no clock: bytes are handed in and out.
#![tactic(auto)]

mod drivers;
mod faults;
pub mod laws;
mod legs;
mod peers;
pub mod sending;
mod talks;
pub mod words;

pub use drivers::Driver;
pub use faults::CallFault;
use net_base::SwitchId;
pub use switch_session::{Cause, Session};
use turned_rounds::Text;

/// How far an update is.
#[derive(Clone, Copy, Debug, PartialEq, Eq)]
pub enum Stage {
    /// So many rounds are settled, and none is running.
    Settled(u32),
    /// The round behind so many others is being carried out.
    Onward(u32),
    /// The round behind so many others is being taken back.
    Undone(u32),
}

/// An event of an update.
#[derive(Clone, Copy, Debug, PartialEq, Eq)]
pub enum DriverEvent {
    /// The next round begins.
    Start,
    /// The change of this number in the running round is made.
    Change(usize),
    /// The running round is settled: all its changes are in force.
    Settle,
    /// The round that was settled last begins to be taken back.
    Back,
    /// The change of this number in the running round is taken back.
    Undo(usize),
    /// The running round is settled: none of its changes is in force.
    SettleBack,
}

/// What a driver says to its caller.
#[derive(Drop)]
pub enum DriverOutput {
    /// A message is to be sent to a switch.
    Send(SwitchId, Text),
    /// The session with a switch failed.
    Failed(SwitchId, Cause),
    /// An event came about.
    Log(DriverEvent),
}
