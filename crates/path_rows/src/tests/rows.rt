//! The rows of masks of small nets, and of a star.

use super::{net_of, star_ends};
use crate::list_uncounted;
use cov_base::{Net, NoMemory};
use path_masks::{Rows, rows_of};
use prime_paths::Listing;
use std::process::Abort;
use std::test::Fail;

/// The rows of all prime paths of a net.
fn rows_for(rt: &(impl AllocGlobal + Abort), net: &Net) -> Result<Option<Rows>, NoMemory> {
    match list_uncounted(rt.alloc(), net, 10000)? {
        Listing::All(paths) => Ok(Some(rows_of(rt.alloc(), net, &paths)?)),
        Listing::LimitPassed => Ok(None),
    }
}

#[test]
fn rows_of_a_cycle_and_of_a_loop(rt: HostRuntime) -> Result<(), Fail> {
    let cycle: &[(u32, u32)] = &[(0, 2), (2, 3), (3, 4), (4, 5), (5, 1), (5, 3)];
    let loop_of_two: &[(u32, u32)] = &[(0, 2), (2, 3), (3, 4), (3, 5), (4, 3), (5, 1)];
    let of_cycle: &[u64] = &[
        1, 0, 1, 0, 1, 0, 1, 0, 2, 1, 0, 15, 4, 4, 1, 0, 15, 9, 8, 1, 0, 14, 2, 2,
    ];
    let of_loop: &[u64] = &[
        1, 0, 3, 0, 1, 0, 3, 0, 4, 1, 0, 13, 9, 24, 1, 0, 18, 18, 0, 1, 0, 28, 4, 4,
    ];
    for (ends, expected) in [(cycle, of_cycle), (loop_of_two, of_loop)] {
        match net_of(rt.alloc(), 6, ends)? {
            Some(net) => match rows_for(&rt, &net) {
                Ok(Some(rows)) => {
                    assert_eq!(rt; rows.width(), 1);
                    assert_eq!(rt; rows.begin_row().len(), 4);
                    assert_eq!(rt; rows.table(), expected);
                }
                _ => panic!(rt; "no rows"),
            },
            None => panic!(rt; "no net"),
        }
    }
    Ok(())
}

#[test]
fn table_of_a_star_has_4413_numbers(rt: HostRuntime) -> Result<(), Fail> {
    // The rows of the arcs 2-202 and 10-203.
    let last_way: &[u64] = &[4, 0, 0, 0, 0, 1, 0, 0, 0, 2, 0, 0, 0, 3, 128, 0, 0];
    let one_end: &[u64] = &[1, 0, 128, 128, 0];
    let ends = star_ends(rt.alloc())?;
    match net_of(rt.alloc(), 204, &ends)? {
        Some(net) => match rows_for(&rt, &net) {
            Ok(Some(rows)) => {
                assert_eq!(rt; rows.width(), 4);
                assert_eq!(rt; rows.begin_row().len(), 13);
                assert_eq!(rt; rows.table().len(), 4413);
                assert_eq!(rt; &rows.table()[3396..3413], last_way);
                assert_eq!(rt; &rows.table()[3448..3453], one_end);
            }
            _ => panic!(rt; "no rows"),
        },
        None => panic!(rt; "no net"),
    }
    Ok(())
}
