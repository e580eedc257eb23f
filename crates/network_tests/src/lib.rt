//! Tests of small texts, files, networks and tables, each module through the public calls of the crate in its name.
#![tactic(auto)]

#[cfg(test)]
mod file_access_tests;
#[cfg(test)]
mod flow_rules_tests;
#[cfg(test)]
mod net_base_tests;
#[cfg(test)]
mod topology_tests;
