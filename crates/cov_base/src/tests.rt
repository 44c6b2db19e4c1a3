//! Rows of parts that make a net or have a first fault, and the look-ups of a net.

use crate::net::{ArcKind, FlowArc, Net, NetFault, falls};
use crate::refusal::Refusal;
use std::process::Abort;
use std::test::*;

const REAL: ArcKind = ArcKind::Real;

const CALL_EXIT: ArcKind = ArcKind::CallExit;

type Ends = (u32, u32, ArcKind);

fn net_of<R: Abort + AllocGlobal>(
    rt: &R,
    blocks: u32,
    ends: &[Ends],
    lists: &[&[u32]],
) -> Result<Net, Refusal<NetFault>> {
    let mut arcs = Vec::new(rt.alloc());
    for (from, to, kind) in ends {
        arcs.push(FlowArc {
            from: *from,
            to: *to,
            kind: *kind,
        })?;
    }
    let mut lines = Vec::new(rt.alloc());
    for list in lists {
        lines.push(Vec::from_slice(rt.alloc(), list)?)?;
    }
    assert!(rt; arcs.len() < 100 && lines.len() < 100);
    Net::new(rt.alloc(), blocks, arcs, lines)
}

#[test]
fn tells_the_first_fault(rt: HostRuntime) -> Result<(), Fail> {
    let entry: &[Ends] = &[(0, 2, REAL)];
    let bare: &[&[u32]] = &[&[], &[], &[]];
    let rows: [(u32, &[Ends], &[&[u32]], Option<NetFault>); 17] = [
        (3, entry, bare, None),
        (2, entry, bare, Some(NetFault::Blocks(2))),
        (513, entry, bare, Some(NetFault::Blocks(513))),
        (
            3,
            &[(0, 2, REAL), (2, 3, REAL)],
            bare,
            Some(NetFault::Range(1)),
        ),
        (
            3,
            &[(0, 2, REAL), (2, 0, REAL)],
            bare,
            Some(NetFault::Range(1)),
        ),
        (
            3,
            &[(0, 2, REAL), (1, 2, REAL)],
            bare,
            Some(NetFault::Range(1)),
        ),
        (
            3,
            &[(0, 2, REAL), (0, 2, REAL)],
            bare,
            Some(NetFault::Order(1)),
        ),
        (3, &[(2, 1, REAL)], bare, Some(NetFault::Entry(0))),
        (
            3,
            &[(0, 1, REAL), (0, 2, REAL)],
            bare,
            Some(NetFault::Entry(0)),
        ),
        (
            3,
            &[(0, 2, REAL), (2, 2, REAL)],
            bare,
            Some(NetFault::Entry(1)),
        ),
        (
            4,
            &[(0, 2, REAL), (2, 3, CALL_EXIT)],
            bare,
            Some(NetFault::Kind(1)),
        ),
        (3, entry, &[&[1], &[], &[]], Some(NetFault::Lines(0))),
        (3, entry, &[&[], &[], &[0]], Some(NetFault::Lines(2))),
        (3, entry, &[&[], &[], &[2, 2]], Some(NetFault::Lines(2))),
        (3, entry, &[&[], &[]], Some(NetFault::Lines(2))),
        (3, entry, &[&[], &[], &[], &[]], Some(NetFault::Lines(3))),
        (4, entry, &[&[], &[], &[], &[]], Some(NetFault::Apart(3))),
    ];
    for (blocks, ends, lists, want) in rows {
        let fault = match net_of(&rt, blocks, ends, lists) {
            Ok(_) => None,
            Err(Refusal::Refused(fault)) => Some(fault),
            Err(Refusal::NoMemory) => return Err(Fail::from("no memory")),
        };
        assert_eq!(rt; fault, want);
    }
    Ok(())
}

#[test]
fn looks_up_a_net(rt: HostRuntime) -> Result<(), Fail> {
    let ends = [(0, 2, REAL), (2, 1, CALL_EXIT), (2, 3, REAL), (3, 1, REAL)];
    let net = net_of(&rt, 4, &ends, &[&[], &[], &[7, 9], &[10]])?;
    assert_eq!(rt; net.blocks(), 4);
    assert_eq!(rt; net.lines(2), [7, 9].as_slice());
    assert_eq!(rt; net.lines(1), [].as_slice());
    assert_eq!(rt; net.arcs().len(), 4);
    let fall = [true, false, true, false];
    for (arc, want) in net.arcs().iter().zip(&fall) {
        assert_eq!(rt; falls(arc), *want);
    }
    Ok(())
}
