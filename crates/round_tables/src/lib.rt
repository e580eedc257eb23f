//! The tables of a network with each switch prepared for the changes of a round, for those that are taken so far for one, or for
//! a single change that is tried.
#![tactic(auto)]

mod alone;
mod applying;
mod changed;
mod ends;
mod filling;
mod gathering;
mod growing;
mod loading;
mod over;
mod prepared;
mod rollout;
mod room;
mod sound;
mod steps;
mod trials;

pub use loading::RoundFault;
pub use prepared::PreparedTables;
pub use rollout::Rollout;
pub use sound::{SoundFault, sound_rounds};
