//! Tests of changes, rounds and runs: how they are made, driven, recorded and replayed.
#![tactic(auto)]

#[cfg(test)]
mod schedule_pilot_tests;
#[cfg(test)]
mod schedule_replay_tests;
#[cfg(test)]
mod square;
#[cfg(test)]
mod update_model_tests;
#[cfg(test)]
mod world_tests;
