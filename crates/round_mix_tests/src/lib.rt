//! Tests of what a switch may do while a round is carried out, through the public calls of `round_mix`.
#![tactic(auto)]

#[cfg(test)]
mod aiming;
#[cfg(test)]
mod subsets;
#[cfg(test)]
mod tests;
#[cfg(test)]
mod trials;
