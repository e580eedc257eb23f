//! Tests of `serve`, over files, lines and a sink in memory.
#![tactic(auto)]

#[cfg(test)]
mod dead_tests;
#[cfg(test)]
mod driven_tests;
#[cfg(test)]
mod exchanges;
#[cfg(test)]
mod fault_tests;
#[cfg(test)]
mod in_turn_tests;
#[cfg(test)]
mod line_tests;
#[cfg(test)]
mod noting;
#[cfg(test)]
mod served;
#[cfg(test)]
mod session_tests;
#[cfg(test)]
mod turning_tests;
#[cfg(test)]
mod two_switches;
