//! Faults of notes and data, in their order.

use super::{Row, data_of, notes_of, report};
use path_report::TallyFault;
use std::process::Abort;
use std::test::Fail;

/// A function that calls another, with what runs left of it: its counters are on the arcs 0-2 and
/// 2-3, and it has one prime path.
fn calling<'a>(counters: &'a [u64], bits: &'a [u64]) -> Row<'a> {
    Row {
        name: "f",
        blocks: 4,
        arcs: &[(0, 2, false), (2, 1, true), (2, 3, false), (3, 1, false)],
        lines: &[(2, 1), (3, 1)],
        counters,
        bits,
    }
}

/// Asserts the fault of the notes of some functions and the data of others.
fn assert_fault(
    rt: &(impl AllocGlobal + Abort),
    limit: u32,
    noted: &[Row<'_>],
    left: &[Row<'_>],
    expected: Option<TallyFault>,
) -> Result<(), Fail> {
    let Some(notes) = notes_of(rt.alloc(), limit, noted)? else {
        panic!(rt; "no net");
    };
    let data = data_of(rt.alloc(), 1, left)?;
    match report(rt, "F", "", &notes, &data)? {
        Ok(_) => assert_eq!(rt; None, expected),
        Err(fault) => assert_eq!(rt; Some(fault), expected),
    }
    Ok(())
}

#[test]
fn faults_of_one_function(rt: HostRuntime) -> Result<(), Fail> {
    let shape = Some(TallyFault::OtherShape(0));
    let rows: [(u32, &[u64], &[u64], Option<TallyFault>); 10] = [
        (1, &[2, 1], &[1], None),
        (1, &[1, 2], &[1], Some(TallyFault::NotAFlow(0, 1))),
        (1, &[1, 2], &[3], shape),
        (1, &[2], &[1], shape),
        (1, &[2, 1, 0], &[1], shape),
        (1, &[2, 1], &[], shape),
        (1, &[2, 1], &[1, 0], shape),
        (1, &[2, 1], &[2], shape),
        (0, &[2, 1], &[], None),
        (0, &[2, 1], &[0], shape),
    ];
    for (limit, counters, bits, expected) in rows {
        let row = calling(counters, bits);
        assert_fault(&rt, limit, &[calling(&[], &[])], &[row], expected)?;
    }
    Ok(())
}

#[test]
fn faults_function_by_function(rt: HostRuntime) -> Result<(), Fail> {
    let two: &[Row<'_>] = &[calling(&[], &[]), calling(&[], &[])];
    let flow = Some(TallyFault::NotAFlow(1, 1));
    assert_fault(
        &rt,
        1,
        two,
        &[calling(&[2, 1], &[1])],
        Some(TallyFault::OtherShape(1)),
    )?;
    let wrong_and_more: &[Row<'_>] = &[
        calling(&[2, 1], &[1]),
        calling(&[1, 2], &[1]),
        calling(&[2, 1], &[1]),
    ];
    assert_fault(&rt, 1, two, wrong_and_more, flow)?;
    let good_and_more: &[Row<'_>] = &[
        calling(&[2, 1], &[1]),
        calling(&[2, 1], &[1]),
        calling(&[2, 1], &[1]),
    ];
    assert_fault(&rt, 1, two, good_and_more, Some(TallyFault::OtherShape(2)))?;
    Ok(())
}

#[test]
fn other_stamps_come_first(rt: HostRuntime) -> Result<(), Fail> {
    let Some(notes) = notes_of(rt.alloc(), 1, &[calling(&[], &[])])? else {
        panic!(rt; "no net");
    };
    let mut data = data_of(rt.alloc(), 1, &[])?;
    data.stamp = 2;
    match report(&rt, "F", "", &notes, &data)? {
        Ok(_) => panic!(rt; "a report"),
        Err(fault) => assert_eq!(rt; fault, TallyFault::OtherBuild(1, 2)),
    }
    Ok(())
}

#[test]
fn another_checksum_is_another_shape(rt: HostRuntime) -> Result<(), Fail> {
    let Some(mut notes) = notes_of(rt.alloc(), 1, &[calling(&[], &[])])? else {
        panic!(rt; "no net");
    };
    if let Some(function) = notes.functions.first_mut() {
        function.checksum = 8;
    }
    let data = data_of(rt.alloc(), 1, &[calling(&[2, 1], &[1])])?;
    match report(&rt, "F", "", &notes, &data)? {
        Ok(_) => panic!(rt; "a report"),
        Err(fault) => assert_eq!(rt; fault, TallyFault::OtherShape(0)),
    }
    Ok(())
}
