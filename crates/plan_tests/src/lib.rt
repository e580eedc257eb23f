//! Tests of plan files and their trees, and of the limits of files, each at its value and one past it.
#![tactic(auto)]

#[cfg(test)]
mod class_limits;
#[cfg(test)]
mod network_limits;
#[cfg(test)]
mod plan_format_tests;
#[cfg(test)]
mod plan_limits;
#[cfg(test)]
mod plan_text_tests;
#[cfg(test)]
mod policy_limits;
#[cfg(test)]
mod texts;
#[cfg(test)]
mod tree_tests;
