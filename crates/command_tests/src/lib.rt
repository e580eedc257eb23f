//! Tests of the commands that don't need the checker, each over files in memory.
#![tactic(auto)]

#[cfg(test)]
mod config_command_tests;
#[cfg(test)]
mod emit_command_tests;
#[cfg(test)]
mod file_sizes;
#[cfg(test)]
mod import_command_tests;
#[cfg(test)]
mod paths_command_tests;
#[cfg(test)]
mod replay_command_tests;
#[cfg(test)]
mod sources;
#[cfg(test)]
mod tables_command_tests;
#[cfg(test)]
mod trace_command_tests;
#[cfg(test)]
mod upgrade_command_tests;
