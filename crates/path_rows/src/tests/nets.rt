//! The prime paths of small nets, and of nets with many.

use super::{assert_listed, net_of, star_ends};
use crate::list_uncounted;
use cov_base::NoMemory;
use prime_paths::Listing;
use std::process::Abort;
use std::test::Fail;

#[test]
fn prime_paths_of_small_nets(rt: HostRuntime) -> Result<(), Fail> {
    let cycle: &[(u32, u32)] = &[(0, 2), (2, 3), (3, 4), (4, 5), (5, 1), (5, 3)];
    let turn: &[(u32, u32)] = &[(0, 2), (2, 3), (3, 1), (3, 3)];
    let single: &[(u32, u32)] = &[(0, 2), (2, 1)];
    let loop_of_two: &[(u32, u32)] = &[(0, 2), (2, 3), (3, 4), (3, 5), (4, 3), (5, 1)];
    let one_if: &[(u32, u32)] = &[(0, 2), (2, 3), (2, 4), (3, 4), (4, 1)];
    let rows: [(u32, &[(u32, u32)], u32, &str); 9] = [
        (6, cycle, 4, "2 3 4 5 , 3 4 5 3 , 4 5 3 4 , 5 3 4 5 , "),
        (6, cycle, 3, "more"),
        (6, cycle, 0, "more"),
        (4, turn, 2, "2 3 , 3 3 , "),
        (4, turn, 1, "more"),
        (3, single, 1, "2 , "),
        (3, single, 0, "more"),
        (
            6,
            loop_of_two,
            5,
            "2 3 4 , 2 3 5 , 3 4 3 , 4 3 4 , 4 3 5 , ",
        ),
        (5, one_if, 2, "2 3 4 , 2 4 , "),
    ];
    for (blocks, ends, limit, expected) in rows {
        assert!(rt; limit <= 65536);
        match net_of(rt.alloc(), blocks, ends)? {
            Some(net) => assert_listed(&rt, &net, limit, expected)?,
            None => panic!(rt; "no net"),
        }
    }
    Ok(())
}

/// A function of the made source: a loop with an `if` in it, and a return behind it.
#[test]
fn made_function_has_eight_cycles_and_seven_more(rt: HostRuntime) -> Result<(), Fail> {
    let ends: &[(u32, u32)] = &[
        (0, 2),
        (2, 3),
        (3, 4),
        (3, 8),
        (4, 5),
        (4, 6),
        (5, 7),
        (6, 7),
        (7, 3),
        (8, 1),
    ];
    let expected =
        "2 3 4 5 7 , 2 3 4 6 7 , 2 3 8 , 3 4 5 7 3 , 3 4 6 7 3 , 4 5 7 3 4 , 4 5 7 3 8 , 4 6 7 3 4 , \
        4 6 7 3 8 , 5 7 3 4 5 , 5 7 3 4 6 , 6 7 3 4 5 , 6 7 3 4 6 , 7 3 4 5 7 , 7 3 4 6 7 , ";
    match net_of(rt.alloc(), 9, ends)? {
        Some(net) => {
            assert_listed(&rt, &net, 15, expected)?;
            assert_listed(&rt, &net, 14, "more")?;
        }
        None => panic!(rt; "no net"),
    }
    Ok(())
}

#[test]
fn star_has_200_prime_paths(rt: HostRuntime) -> Result<(), Fail> {
    let ends = star_ends(rt.alloc())?;
    match net_of(rt.alloc(), 204, &ends)? {
        Some(net) => match list_uncounted(rt.alloc(), &net, 200) {
            Ok(Listing::All(paths)) => assert_eq!(rt; paths.len(), 200),
            _ => panic!(rt; "not all"),
        },
        None => panic!(rt; "no net"),
    }
    Ok(())
}

/// Twenty `if`s in a row, each with a block of its own.
#[test]
fn twenty_ifs_have_more_than_10000(rt: HostRuntime) -> Result<(), Fail> {
    let mut ends = Vec::new(rt.alloc());
    ends.push((0u32, 2u32))?;
    for step in 0..20u32 {
        let test = 2 + 2 * step;
        ends.push((test, test + 1))?;
        ends.push((test, test + 2))?;
        ends.push((test + 1, test + 2))?;
    }
    ends.push((42, 1))?;
    match net_of(rt.alloc(), 43, &ends)? {
        Some(net) => assert_listed(&rt, &net, 10000, "more")?,
        None => panic!(rt; "no net"),
    }
    Ok(())
}
