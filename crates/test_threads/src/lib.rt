//! Tests of what threads do on one queue: the shared queue, and the players of a crowd.
//!
//! They stand in a crate of their own, so that no crate is proved a second time for its tests.
#![tactic(auto)]

#[cfg(test)]
mod crowd;
#[cfg(test)]
mod shared;
