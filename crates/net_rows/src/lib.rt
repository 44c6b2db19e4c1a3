//! Tests of pruning, nets, trees and counters; and the nets of a unit's pruned graphs.
#![tactic(auto)]

#[cfg(test)]
mod tests;
mod unit_nets;
mod well_made;

pub use unit_nets::nets_of;
pub use well_made::is_well_made;
