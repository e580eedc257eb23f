//! The mixed walks of a class: where its packets may go while a round is carried out.
#![tactic(auto)]

mod edges;
mod marked;
mod noted;
mod reached;
mod walk;

pub use walk::WalkRoom;
