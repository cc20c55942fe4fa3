// Tests of the crate cluster, through its public calls.
#![tactic(auto)]

#[cfg(test)]
mod faults;
#[cfg(test)]
mod questions;
#[cfg(test)]
mod refusals;
#[cfg(test)]
mod runs;
#[cfg(test)]
mod scene;
