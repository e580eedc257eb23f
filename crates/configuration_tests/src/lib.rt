//! Tests of classes, paths and the readers of configurations and policies, each module through the public calls of the
//! crate in its name.
#![tactic(auto)]

#[cfg(test)]
mod config_files_tests;
#[cfg(test)]
mod demands_tests;
#[cfg(test)]
mod dest_classes_tests;
#[cfg(test)]
mod messages;
#[cfg(test)]
mod path_walk_tests;
