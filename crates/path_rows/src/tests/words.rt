//! The word rules along a walk.

use std::process::Abort;
use std::test::Fail;
use word_rules::{begin, pass};

/// The rows of the four prime paths of a cycle of three blocks behind one.
#[test]
fn walk_along_a_cycle_keeps_and_gains_bits(rt: HostRuntime) -> Result<(), Fail> {
    let mut bits = [7u64];
    let mut seen = [0u64];
    begin(&mut bits, &mut seen, &[1, 0, 1, 0]);
    pass(&mut bits, &mut seen, &[1, 0, 1, 0, 2]);
    pass(&mut bits, &mut seen, &[1, 0, 15, 4, 4]);
    pass(&mut bits, &mut seen, &[1, 0, 15, 9, 8]);
    assert_eq!(rt; bits[0], 15);
    assert_eq!(rt; seen[0], 1);
    pass(&mut bits, &mut seen, &[1, 0, 14, 2, 2]);
    pass(&mut bits, &mut seen, &[1, 0, 15, 4, 4]);
    pass(&mut bits, &mut seen, &[1, 0, 15, 9, 8]);
    assert_eq!(rt; bits[0], 14);
    assert_eq!(rt; seen[0], 15);
    Ok(())
}
