//! Texts with their faults of names and types, and texts that are accepted.

mod rows;

use crate::{TypedFault, typed_of_text};
use c_types::TypeFault;
use cov_base::{Refusal, SOURCE_LIMIT};
use std::process::Abort;

fn assert_fault(rt: &(impl AllocGlobal + Abort), text: &[u8], fault: TypeFault) {
    assert!(rt; text.len() <= SOURCE_LIMIT);
    match typed_of_text(rt.alloc(), text) {
        Err(Refusal::Refused(found)) => {
            assert_eq!(rt; found, TypedFault::Types(fault), "of {text:?}")
        }
        _ => panic!(rt; "no fault of {text:?}"),
    }
}

fn assert_faults(rt: &(impl AllocGlobal + Abort), rows: &[(&[u8], TypeFault)]) {
    for (text, fault) in rows {
        assert_fault(rt, text, *fault);
    }
}

/// The text is accepted, and its main function is one of its functions.
fn assert_accepted(rt: &(impl AllocGlobal + Abort), text: &[u8]) {
    assert!(rt; text.len() <= SOURCE_LIMIT);
    match typed_of_text(rt.alloc(), text) {
        Ok(typed) => assert!(rt;
            (typed.main as usize) < typed.functions.len(),
            "of {text:?}"
        ),
        Err(_) => panic!(rt; "a fault of {text:?}"),
    }
}

#[test]
fn names_have_their_faults(rt: HostRuntime) {
    assert_faults(&rt, &rows::UNKNOWN);
    assert_faults(&rt, &rows::REDECLARED);
    assert_faults(&rt, &rows::NO_BODY);
    assert_faults(&rt, &rows::ARG_COUNT);
    assert_faults(&rt, &rows::NOT_A_FUNCTION);
    assert_faults(&rt, &rows::NOT_AN_ARRAY);
    assert_faults(&rt, &rows::NOT_A_VARIABLE);
}

#[test]
fn values_have_their_faults(rt: HostRuntime) {
    assert_faults(&rt, &rows::ARRAY_VALUE);
    assert_faults(&rt, &rows::VOID_VALUE);
    assert_faults(&rt, &rows::BAD_CASE);
    assert_faults(&rt, &rows::NOT_CONSTANT);
    assert_faults(&rt, &rows::TWICE_CASE);
}

#[test]
fn statements_and_sources_have_their_faults(rt: HostRuntime) {
    assert_faults(&rt, &rows::OUTSIDE_LOOP);
    assert_faults(&rt, &rows::ARRAY_SIZE);
    assert_faults(&rt, &rows::TOO_MANY_PARAMETERS);
    assert_faults(&rt, &rows::NO_MAIN);
}

#[test]
fn odd_sources_are_accepted(rt: HostRuntime) {
    for text in &rows::ACCEPTED {
        assert_accepted(&rt, text);
    }
}

#[test]
fn faults_have_their_words_and_places(rt: HostRuntime) {
    let rows = [
        (TypeFault::Unknown(1), "unknown"),
        (TypeFault::Redeclared(2), "redeclared"),
        (TypeFault::NoBody(3), "no body"),
        (TypeFault::ArgCount(4), "arg count"),
        (TypeFault::NotAFunction(5), "not a function"),
        (TypeFault::NotAnArray(6), "not an array"),
        (TypeFault::NotAVariable(7), "not a variable"),
        (TypeFault::ArrayValue(8), "array value"),
        (TypeFault::VoidValue(9), "void value"),
        (TypeFault::BadCase(10), "bad case"),
        (TypeFault::NotConstant(11), "not constant"),
        (TypeFault::TwiceCase(12), "twice case"),
        (TypeFault::OutsideLoop(13), "outside loop"),
        (TypeFault::ArraySize(14), "array size"),
        (TypeFault::TooManyParameters(15), "too many parameters"),
        (TypeFault::NoMain(16), "no main"),
    ];
    let mut place = 0u32;
    for (fault, words) in rows {
        place = place.saturating_add(1);
        assert_eq!(rt; fault.words(), words);
        assert_eq!(rt; fault.place(), place);
    }
}
