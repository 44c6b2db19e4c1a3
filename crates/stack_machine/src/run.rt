//! A run under way.

use crate::bits::PathBits;
use crate::counts::FunctionCounts;
use crate::frame::Frame;
use crate::globals::Globals;
use crate::store::Store;
use std::alloc::Global;

/// Where a run is: its numbers, path bits and globals, what was counted in each function, the calls
/// that wait, the function of the innermost call with its next instruction, and the turns left.
#[derive(Drop)]
pub(crate) struct Run {
    pub(crate) store: Store,
    pub(crate) bits: PathBits,
    pub(crate) globals: Globals,
    pub(crate) counts: Vec<FunctionCounts>,
    pub(crate) frames: Vec<Frame>,
    pub(crate) function: usize,
    pub(crate) at: usize,
    pub(crate) turns: u64,
}

impl Run {
    /// Nowhere, and with room for nothing.
    pub(crate) fn nowhere(alloc: Global) -> Run {
        Run {
            store: Store::empty(alloc),
            bits: PathBits::empty(alloc),
            globals: Globals::empty(alloc),
            counts: Vec::new(alloc),
            frames: Vec::new(alloc),
            function: 0,
            at: 0,
            turns: 0,
        }
    }
}
