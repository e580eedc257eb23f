//! What the commands that check a plan of an update share: the names of its files, their reading and the dialogue with them, and
//! the lines on the reasons why a plan is refused.
#![tactic(auto)]

mod check_files;
mod names;
mod reason_lines;
mod refused;

pub use crate::check_files::{CheckFiles, read_check_files};
pub use crate::names::{CheckNames, check_names};
pub use crate::reason_lines::{class_named, refused_line};
pub use crate::refused::{class_of, refused_reply};
