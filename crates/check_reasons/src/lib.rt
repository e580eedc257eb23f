//! Why a plan is refused: the reasons of the checker, the case that it checks, which addresses and classes a round touches,
//! and the before sets of a class by their numbers.
#![tactic(auto)]

mod case;
mod least;
mod positions;
mod reason;
mod touched;
mod touched_atoms;

pub use case::Case;
pub use least::lesser;
pub use positions::{earlier_set, from_place, has_positions, set_at};
pub use reason::{Reason, Verdict};
pub use touched::{is_touched, may_cover};
pub use touched_atoms::TouchedAtoms;
