//! Texts with their trees, and texts that have none.

use super::fault_rows::{DEPTH_ROWS, Nested};
use super::{fault_rows, tree_rows};
use crate::{TextFault, tree_of_text};
use c_parser::ParseFault;
use c_tokens::LexFault;
use c_tree::Tree;
use cov_base::{Refusal, SOURCE_LIMIT};
use std::alloc::{AllocError, Global};
use std::process::Abort;

/// What the short form of a tree leaves out of its form for debugging, and what stands in place of it.
const SHORTER: [(&str, &str); 7] = [
    ("Items { items: ", ""),
    ("Boxed { inner: ", ""),
    ("Expr { kind: ", ""),
    ("Ident { text: ", ""),
    (", place: ", "@"),
    (", line: ", ":"),
    (" }", ""),
];

/// The short form of a tree.
fn brief(alloc: Global, tree: &Tree) -> Result<String, AllocError> {
    let mut text = format!(in alloc; "{tree:?}")?;
    for (from, to) in &SHORTER {
        text = text.replace(alloc, *from, *to)?;
    }
    Ok(text)
}

fn assert_tree(rt: &(impl AllocGlobal + Abort), text: &[u8], form: &str) {
    assert!(rt; text.len() <= SOURCE_LIMIT);
    match tree_of_text(rt.alloc(), text) {
        Ok(tree) => match brief(rt.alloc(), &tree) {
            Ok(found) => assert_eq!(rt; found.as_str(), form, "of {text:?}"),
            Err(_) => panic!(rt; "no memory"),
        },
        Err(_) => panic!(rt; "no tree of {text:?}"),
    }
}

fn assert_fault(rt: &(impl AllocGlobal + Abort), text: &[u8], expected: TextFault) {
    assert!(rt; text.len() <= SOURCE_LIMIT);
    match tree_of_text(rt.alloc(), text) {
        Err(Refusal::Refused(fault)) => assert_eq!(rt; fault, expected, "of {text:?}"),
        _ => panic!(rt; "no fault of {text:?}"),
    }
}

fn assert_trees(rt: &(impl AllocGlobal + Abort), rows: &[(&[u8], &str)]) {
    for (text, form) in rows {
        assert_tree(rt, text, form);
    }
}

fn assert_faults(rt: &(impl AllocGlobal + Abort), rows: &[(&[u8], u32)]) {
    for (text, place) in rows {
        assert_fault(rt, text, TextFault::Parse(ParseFault::Syntax(*place)));
    }
}

#[test]
fn sources_have_these_trees(rt: HostRuntime) {
    assert_trees(&rt, &tree_rows::SOURCE_TREES);
}

#[test]
fn operators_have_these_trees(rt: HostRuntime) {
    assert_trees(&rt, &tree_rows::OPERATOR_TREES);
}

#[test]
fn choices_have_these_trees(rt: HostRuntime) {
    assert_trees(&rt, &tree_rows::CHOICE_TREES);
}

#[test]
fn assignments_have_these_trees(rt: HostRuntime) {
    assert_trees(&rt, &tree_rows::ASSIGNMENT_TREES);
}

#[test]
fn casts_have_these_trees(rt: HostRuntime) {
    assert_trees(&rt, &tree_rows::CAST_TREES);
}

#[test]
fn operands_and_steps_have_these_trees(rt: HostRuntime) {
    assert_trees(&rt, &tree_rows::POSTFIX_TREES);
}

#[test]
fn constants_have_these_trees(rt: HostRuntime) {
    assert_trees(&rt, &tree_rows::CONSTANT_TREES);
}

#[test]
fn declarations_have_these_trees(rt: HostRuntime) {
    assert_trees(&rt, &tree_rows::DECLARATION_TREES);
}

#[test]
fn functions_have_these_trees(rt: HostRuntime) {
    assert_trees(&rt, &tree_rows::FUNCTION_TREES);
}

#[test]
fn blocks_have_these_trees(rt: HostRuntime) {
    assert_trees(&rt, &tree_rows::BLOCK_TREES);
}

#[test]
fn branches_have_these_trees(rt: HostRuntime) {
    assert_trees(&rt, &tree_rows::BRANCH_TREES);
}

#[test]
fn loops_have_these_trees(rt: HostRuntime) {
    assert_trees(&rt, &tree_rows::LOOP_TREES);
}

#[test]
fn switches_have_these_trees(rt: HostRuntime) {
    assert_trees(&rt, &tree_rows::SWITCH_TREES);
}

#[test]
fn sources_stop_at_these_places(rt: HostRuntime) {
    assert_faults(&rt, &fault_rows::SOURCE_FAULTS);
}

#[test]
fn types_stop_at_these_places(rt: HostRuntime) {
    assert_faults(&rt, &fault_rows::TYPE_FAULTS);
}

#[test]
fn variables_stop_at_these_places(rt: HostRuntime) {
    assert_faults(&rt, &fault_rows::VARIABLE_FAULTS);
}

#[test]
fn functions_stop_at_these_places(rt: HostRuntime) {
    assert_faults(&rt, &fault_rows::FUNCTION_FAULTS);
}

#[test]
fn operators_stop_at_these_places(rt: HostRuntime) {
    assert_faults(&rt, &fault_rows::OPERATOR_FAULTS);
}

#[test]
fn operands_stop_at_these_places(rt: HostRuntime) {
    assert_faults(&rt, &fault_rows::OPERAND_FAULTS);
}

#[test]
fn branches_stop_at_these_places(rt: HostRuntime) {
    assert_faults(&rt, &fault_rows::BRANCH_FAULTS);
}

#[test]
fn loops_stop_at_these_places(rt: HostRuntime) {
    assert_faults(&rt, &fault_rows::LOOP_FAULTS);
}

#[test]
fn switches_stop_at_these_places(rt: HostRuntime) {
    assert_faults(&rt, &fault_rows::SWITCH_FAULTS);
}

#[test]
fn statements_stop_at_these_places(rt: HostRuntime) {
    assert_faults(&rt, &fault_rows::STATEMENT_FAULTS);
}

/// A text with so many repetitions.
fn repeated(alloc: Global, row: &Nested, times: usize) -> Result<Vec<u8>, AllocError> {
    let mut text = Vec::from_slice(alloc, row.front)?;
    for _ in 0..times {
        text.extend_from_slice(row.unit)?;
    }
    text.extend_from_slice(row.middle)?;
    for _ in 0..times {
        text.extend_from_slice(row.close)?;
    }
    text.extend_from_slice(row.back)?;
    Ok(text)
}

/// Whether a text of so many repetitions has a tree; none where it would go too deep.
fn has_tree(rt: &(impl AllocGlobal + Abort), row: &Nested, times: usize) -> bool {
    let Ok(text) = repeated(rt.alloc(), row, times) else {
        panic!(rt; "no memory");
    };
    assert!(rt; text.len() <= SOURCE_LIMIT);
    match tree_of_text(rt.alloc(), &text) {
        Ok(_) => true,
        Err(Refusal::Refused(TextFault::Parse(ParseFault::TooDeep(_)))) => false,
        Err(_) => panic!(rt; "no answer for {text:?}"),
    }
}

#[test]
fn trees_go_no_deeper_than_the_limit(rt: HostRuntime) {
    for row in &DEPTH_ROWS {
        assert!(rt; has_tree(&rt, row, row.most));
        assert!(rt; !has_tree(&rt, row, row.most.saturating_add(1)));
        assert!(rt; !has_tree(&rt, row, 2000));
    }
}

/// Fails unless a text that ends behind so many openings is at fault: at its end, or where it is too deep.
fn assert_cut(rt: &(impl AllocGlobal + Abort), row: &Nested, times: usize) {
    let cut = Nested {
        close: b"",
        back: b"",
        ..*row
    };
    let Ok(text) = repeated(rt.alloc(), &cut, times) else {
        panic!(rt; "no memory");
    };
    assert!(rt; text.len() <= SOURCE_LIMIT);
    let length = text.len() as u32;
    match tree_of_text(rt.alloc(), &text) {
        Err(Refusal::Refused(TextFault::Parse(ParseFault::Syntax(place)))) => {
            assert!(rt; times <= row.most);
            assert_eq!(rt; place, length, "of {text:?}");
        }
        Err(Refusal::Refused(TextFault::Parse(ParseFault::TooDeep(_)))) => {
            assert!(rt; row.most <= times);
        }
        _ => panic!(rt; "no fault of {text:?}"),
    }
}

#[test]
fn openings_without_an_end_are_at_fault(rt: HostRuntime) {
    for row in &DEPTH_ROWS {
        for times in row.most.saturating_sub(2)..=row.most {
            assert_cut(&rt, row, times);
        }
    }
    assert_fault(&rt, b"int x = 'a", TextFault::Lex(LexFault::BadByte(10)));
    assert_fault(&rt, b"int x; /* ", TextFault::Lex(LexFault::OpenComment(7)));
}

#[test]
fn long_texts_of_one_mark_are_refused_at_once(rt: HostRuntime) {
    let parentheses = Nested {
        front: b"",
        unit: b"(",
        middle: b"",
        close: b"",
        back: b"",
        most: 0,
    };
    let Ok(text) = repeated(rt.alloc(), &parentheses, SOURCE_LIMIT) else {
        panic!(rt; "no memory");
    };
    assert_fault(&rt, &text, TextFault::Parse(ParseFault::Syntax(0)));
}

#[test]
fn single_bytes_have_no_tree_but_blanks(rt: HostRuntime) {
    for byte in 0..=255_u8 {
        let text = [byte];
        let blank = matches!(byte, b' ' | b'\t' | b'\n' | b'\r' | 11 | 12);
        match tree_of_text(rt.alloc(), &text) {
            Ok(tree) => {
                assert!(rt; blank);
                assert_eq!(rt; tree.outers.len(), 0);
            }
            Err(Refusal::Refused(TextFault::Parse(fault))) => {
                assert!(rt; !blank);
                assert_eq!(rt; fault, ParseFault::Syntax(0));
            }
            Err(Refusal::Refused(TextFault::Lex(_))) => assert!(rt; !blank),
            Err(Refusal::NoMemory) => panic!(rt; "no memory"),
        }
    }
}

#[test]
fn texts_without_tokens_are_the_scanners(rt: HostRuntime) {
    assert_fault(
        &rt,
        b"int main(void) { /* ",
        TextFault::Lex(LexFault::OpenComment(17)),
    );
    assert_fault(&rt, b"int x = 08;", TextFault::Lex(LexFault::BadNumber(8)));
    assert_fault(
        &rt,
        b"int x = 1int;",
        TextFault::Lex(LexFault::BadNumber(8)),
    );
    assert_fault(&rt, b"int x\x00;", TextFault::Lex(LexFault::BadByte(5)));
    assert_fault(
        &rt,
        b"int x = 18446744073709551616;",
        TextFault::Lex(LexFault::BigLiteral(8)),
    );
}
