//! Tests of `plan`, `pack` and `sample`, and of `check` on what was planned.
#![tactic(auto)]

#[cfg(test)]
mod growing;
#[cfg(test)]
mod neighbours;
#[cfg(test)]
mod pack_command_tests;
#[cfg(test)]
mod plan_command_tests;
#[cfg(test)]
mod planners;
#[cfg(test)]
mod retried;
#[cfg(test)]
mod ring;
#[cfg(test)]
mod sample_command_tests;
#[cfg(test)]
mod shared_tests;
#[cfg(test)]
mod stuck;
