//! Tests of the driver that can turn back.
#![tactic(auto)]

#[cfg(test)]
mod courses;
#[cfg(test)]
mod fixture;
#[cfg(test)]
mod turning_tests;
