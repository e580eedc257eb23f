//! Tests of messages of the wire, of flow statistics and of a driver's inputs, through the public calls of openflow10, flow_stats
//! and driver_input.
#![tactic(auto)]

#[cfg(test)]
mod driver_input_tests;
#[cfg(test)]
mod flow_stats_faults;
#[cfg(test)]
mod flow_stats_profile;
#[cfg(test)]
mod flow_stats_tests;
#[cfg(test)]
mod openflow10_tests;
