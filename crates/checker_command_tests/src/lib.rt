//! Tests of `check` and of the commands that check a plan first, each over files in memory.
#![tactic(auto)]

#[cfg(test)]
mod answers;
#[cfg(test)]
mod certify_command_tests;
#[cfg(test)]
mod check_command_tests;
#[cfg(test)]
mod damaged_plans;
#[cfg(test)]
mod drive_command_tests;
#[cfg(test)]
mod empty_rounds;
#[cfg(test)]
mod explain_command_tests;
#[cfg(test)]
mod explain_examples;
#[cfg(test)]
mod failing_sources;
#[cfg(test)]
mod room_tests;
#[cfg(test)]
mod simulate_command_tests;
#[cfg(test)]
mod upgraded_plans;
