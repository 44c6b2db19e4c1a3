//! The notes of a worked program, and what changed bytes of them are.

use crate::{place_of, written_again};
use cov_base::{NoMemory, Refusal};
use gcno_format::{FileFault, checksum_of, read_notes};
use std::alloc::{AllocError, Global};
use std::test::Fail;

/// The notes of a program whose function has a loop of blocks 3 and 4. The checksum is that which
/// another program gives for the records of blocks and arcs.
static LOOP: [u8; 237] = [
    111, 110, 99, 103, 114, 48, 49, 80, 1, 0, 0, 0, 16, 39, 0, 0, 1, 0, 0, 0, 0, 0, 0, 1, 21, 0, 0,
    0, 0, 0, 0, 0, 32, 21, 37, 46, 5, 0, 0, 0, 109, 97, 105, 110, 0, 1, 0, 0, 0, 0, 0, 65, 1, 4, 0,
    0, 0, 6, 0, 0, 0, 0, 0, 67, 1, 12, 0, 0, 0, 0, 0, 0, 0, 2, 0, 0, 0, 5, 0, 0, 0, 0, 0, 67, 1,
    12, 0, 0, 0, 2, 0, 0, 0, 3, 0, 0, 0, 4, 0, 0, 0, 0, 0, 67, 1, 20, 0, 0, 0, 3, 0, 0, 0, 4, 0, 0,
    0, 5, 0, 0, 0, 5, 0, 0, 0, 1, 0, 0, 0, 0, 0, 67, 1, 12, 0, 0, 0, 4, 0, 0, 0, 3, 0, 0, 0, 0, 0,
    0, 0, 0, 0, 67, 1, 12, 0, 0, 0, 5, 0, 0, 0, 1, 0, 0, 0, 1, 0, 0, 0, 0, 0, 69, 1, 12, 0, 0, 0,
    2, 0, 0, 0, 1, 0, 0, 0, 2, 0, 0, 0, 0, 0, 69, 1, 8, 0, 0, 0, 3, 0, 0, 0, 3, 0, 0, 0, 0, 0, 69,
    1, 8, 0, 0, 0, 4, 0, 0, 0, 4, 0, 0, 0, 0, 0, 69, 1, 8, 0, 0, 0, 5, 0, 0, 0, 5, 0, 0, 0,
];

/// The fault of the bytes, where they have one.
fn fault_of(alloc: Global, bytes: &[u8]) -> Result<Option<FileFault>, NoMemory> {
    match read_notes(alloc, bytes) {
        Ok(_) => Ok(None),
        Err(Refusal::Refused(fault)) => Ok(Some(fault)),
        Err(Refusal::NoMemory) => Err(NoMemory),
    }
}

/// The notes of the loop with another byte at this place.
fn changed(alloc: Global, place: usize, byte: u8) -> Result<Vec<u8>, AllocError> {
    let mut bytes = Vec::from_slice(alloc, &LOOP)?;
    if let Some(old) = bytes.get_mut(place) {
        *old = byte;
    }
    Ok(bytes)
}

#[test]
fn notes_that_are_read_are_written_again_byte_for_byte(rt: HostRuntime) -> Result<(), Fail> {
    match written_again(rt.alloc(), &LOOP) {
        Ok(bytes) => assert_eq!(rt; bytes.as_slice(), LOOP.as_slice()),
        Err(_) => assert!(rt; false),
    }
    Ok(())
}

#[test]
fn notes_of_a_loop_have_its_name_lines_and_checksum(rt: HostRuntime) -> Result<(), Fail> {
    match read_notes(rt.alloc(), &LOOP) {
        Ok(notes) => {
            assert_eq!(rt;
                (notes.stamp, notes.limit, notes.functions.len()),
                (1, 10_000, 1)
            );
            for function in &notes.functions {
                assert_eq!(rt; function.name.bytes(), b"main".as_slice());
                assert_eq!(rt; (function.line, function.net.blocks()), (1, 6));
                assert_eq!(rt; function.net.arcs().len(), 6);
                assert_eq!(rt; checksum_of(rt.alloc(), &function.net)?, function.checksum);
            }
        }
        Err(_) => assert!(rt; false),
    }
    Ok(())
}

#[test]
fn each_cut_is_short_but_where_a_record_may_be_the_last(rt: HostRuntime) -> Result<(), Fail> {
    for size in 0..237usize {
        let expected = match size {
            61 | 81 | 101 | 129 | 149 => Some(FileFault::Net(20)),
            169 | 189 | 205 | 221 => None,
            _ => Some(FileFault::Short(size as u64)),
        };
        assert_eq!(rt; fault_of(rt.alloc(), &LOOP[..size])?, expected);
    }
    Ok(())
}

#[test]
fn bytes_behind_the_notes_are_told(rt: HostRuntime) -> Result<(), Fail> {
    let rows: &[(&[u8], FileFault)] = &[
        (&[0], FileFault::Short(238)),
        (&[255, 255, 255], FileFault::Short(240)),
        (&[0, 0, 0, 0], FileFault::Extra(237)),
        (&[0, 0, 67, 1], FileFault::Extra(237)),
        (&[0, 0, 69, 1], FileFault::Short(241)),
    ];
    for (behind, expected) in rows {
        let mut bytes = Vec::from_slice(rt.alloc(), &LOOP)?;
        bytes.extend_from_slice(behind)?;
        assert_eq!(rt; fault_of(rt.alloc(), &bytes)?, Some(*expected));
    }
    Ok(())
}

#[test]
fn each_fault_is_told_at_its_place(rt: HostRuntime) -> Result<(), Fail> {
    let rows = [
        (0, 97, FileFault::Magic(0)),
        (6, 50, FileFault::Version(4)),
        (14, 1, FileFault::Number(12)),
        (16, 0, FileFault::Extra(20)),
        (16, 2, FileFault::Short(237)),
        (23, 2, FileFault::Tag(20)),
        (24, 17, FileFault::Length(24)),
        (24, 22, FileFault::Length(24)),
        (28, 1, FileFault::Order(28)),
        (32, 0, FileFault::Net(20)),
        (36, 255, FileFault::Short(237)),
        (40, 48, FileFault::Text(36)),
        (42, 0, FileFault::Text(36)),
        (44, 97, FileFault::Text(36)),
        (51, 67, FileFault::Tag(49)),
        (53, 8, FileFault::Length(53)),
        (57, 7, FileFault::Net(20)),
        (65, 4, FileFault::Length(65)),
        (65, 16, FileFault::Length(65)),
        (73, 3, FileFault::Net(20)),
        (77, 4, FileFault::Net(20)),
        (77, 13, FileFault::Net(20)),
        (89, 0, FileFault::Order(89)),
        (173, 4, FileFault::Length(173)),
        (177, 1, FileFault::Net(169)),
        (185, 1, FileFault::Net(169)),
        (191, 67, FileFault::Extra(189)),
        (197, 2, FileFault::Order(197)),
        (201, 0, FileFault::Net(189)),
        (229, 6, FileFault::Net(221)),
    ];
    for (place, byte, expected) in rows {
        let bytes = changed(rt.alloc(), place, byte)?;
        assert_eq!(rt; fault_of(rt.alloc(), &bytes)?, Some(expected));
        assert!(rt; place_of(&expected) <= bytes.len() as u64);
    }
    Ok(())
}
