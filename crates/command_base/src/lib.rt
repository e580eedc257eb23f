//! What all commands share: files with their kinds and limits, which are fetched and read into values; the lines on bad files;
//! replies, early ends and statuses; and the dialogue of a command with its files.
#![tactic(auto)]

mod exit;
mod faults;
mod files;
mod kinds;
mod lines;
mod names;
mod plan_files;
mod readings;
mod reply;
mod status;
mod too_many;
mod updates;

pub use crate::exit::Exit;
pub use crate::faults::Fault;
pub use crate::files::fetch_file;
pub use crate::kinds::FileKind;
pub use crate::lines::{bad_line, class_text, classes_line, how_text, switch_name};
pub use crate::names::{PlanNames, UpdateNames, plan_names, update_names};
pub use crate::plan_files::{PlanFiles, read_plan_files};
pub use crate::readings::{
    bad_reply, read_configuration, read_plan_file, read_policy, read_topology,
};
pub use crate::reply::Reply;
pub use crate::status::Status;
pub use crate::too_many::no_classes_reply;
pub use crate::updates::{UpdateFiles, read_update};
