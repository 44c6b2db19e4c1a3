//! Tests of an arc that sums over arcs call for.

ghost use Rattle.std.specs.Prelude.{◌≡◌};
ghost use Rattle.report_parts.specs.ArcTests as spec;

use cov_base::{ArcKind, FlowArc};

/// A test of an arc.
#[derive(Clone, Copy)]
pub enum ArcTest {
    /// It leads from the entry to block 2.
    IsCall,
    /// It is real and enters the exit.
    IsReturn,
    /// It is a call-exit arc.
    IsCallExit,
    /// It enters the block.
    Enters(u32),
    /// It is real and leaves the block.
    IsWayOut(u32),
    /// It is a call-exit arc and leaves the block.
    IsCallExitOf(u32),
}

impl ArcTest {
    /// Whether the arc passes the test.
    pub fn passes(self, arc: &FlowArc) -> bool
        ensures { result ≡ spec.passes self arc.now }
    {
        let is_real = arc.kind == ArcKind::Real;
        match self {
            ArcTest::IsCall => arc.from == 0 && arc.to == 2,
            ArcTest::IsReturn => is_real && arc.to == 1,
            ArcTest::IsCallExit => !is_real,
            ArcTest::Enters(block) => arc.to == block,
            ArcTest::IsWayOut(block) => is_real && arc.from == block,
            ArcTest::IsCallExitOf(block) => !is_real && arc.from == block,
        }
    }
}
