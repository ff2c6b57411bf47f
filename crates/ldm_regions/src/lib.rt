//! The tiling of a queue's arena: which owner has which region, and where a new region goes.
#![tactic(auto)]

mod gaps;
mod links;
mod regions;

pub use regions::Regions;
