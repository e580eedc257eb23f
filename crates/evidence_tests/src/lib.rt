//! Tests of numberings and before sets, each module through the public calls of the crate in its name.
#![tactic(auto)]

#[cfg(test)]
mod acyclic_numbering_tests;
#[cfg(test)]
mod waypoint_evidence_tests;
