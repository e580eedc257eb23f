//! Tests of plans and of the parts of the planner, each module through the public calls of the crate in its name.
#![tactic(auto)]

#[cfg(test)]
mod certificates_tests;
#[cfg(test)]
mod empty_tables;
#[cfg(test)]
mod evidence_store_tests;
#[cfg(test)]
mod parts;
#[cfg(test)]
mod round_tables_tests;
#[cfg(test)]
mod table_difference_tests;
#[cfg(test)]
mod tag_allocator_tests;
#[cfg(test)]
mod two_phase_tests;
