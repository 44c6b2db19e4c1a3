//! The tokens of short texts, of each byte alone and of long texts, and the faults of texts that have none.

use c_tokens::{Keyword, LeftWord, LexFault, Punct, Token, TokenKind, scan};
use cov_base::Refusal;
use int_ops::IntType;
use std::process::Abort;
use std::test::Fail;

/// Fails unless the text has these tokens.
fn assert_tokens(rt: &(impl AllocGlobal + Abort), text: &[u8], tokens: &[Token]) {
    assert!(rt; text.len() <= 1_048_576);
    match scan(rt.alloc(), text) {
        Ok(list) => assert_eq!(rt; list.as_slice(), tokens, "of {text:?}"),
        Err(Refusal::Refused(fault)) => panic!(rt; "{fault:?} in {text:?}"),
        Err(Refusal::NoMemory) => panic!(rt; "no memory"),
    }
}

/// Fails unless the whole text is one token of this kind.
fn assert_token(rt: &(impl AllocGlobal + Abort), text: &[u8], kind: TokenKind) {
    assert!(rt; text.len() <= 1_048_576);
    let end = text.len() as u32;
    assert_tokens(rt, text, &[token(kind, 0, end, 1)]);
}

/// Fails unless the text has this fault.
fn assert_fault(rt: &(impl AllocGlobal + Abort), text: &[u8], fault: LexFault) {
    assert!(rt; text.len() <= 1_048_576);
    match scan(rt.alloc(), text) {
        Ok(list) => panic!(rt; "{list:?} of {text:?}"),
        Err(Refusal::Refused(found)) => assert_eq!(rt; found, fault, "in {text:?}"),
        Err(Refusal::NoMemory) => panic!(rt; "no memory"),
    }
}

/// The fault of the text, if it has one.
fn fault_of(rt: &(impl AllocGlobal + Abort), text: &[u8]) -> Option<LexFault> {
    assert!(rt; text.len() <= 1_048_576);
    match scan(rt.alloc(), text) {
        Err(Refusal::Refused(fault)) => Some(fault),
        _ => None,
    }
}

/// How many tokens the text has.
fn count_of(rt: &(impl AllocGlobal + Abort), text: &[u8]) -> Option<usize> {
    assert!(rt; text.len() <= 1_048_576);
    match scan(rt.alloc(), text) {
        Ok(list) => Some(list.len()),
        Err(_) => None,
    }
}

fn token(kind: TokenKind, start: u32, end: u32, line: u32) -> Token {
    Token {
        kind,
        start,
        end,
        line,
    }
}

#[test]
fn numbers_have_their_value_and_type(rt: HostRuntime) {
    let rows: [(&[u8], i128, IntType); 33] = [
        (b"0", 0, IntType::Int),
        (b"00", 0, IntType::Int),
        (b"017", 15, IntType::Int),
        (b"42", 42, IntType::Int),
        (b"2147483647", 2147483647, IntType::Int),
        (b"2147483648", 2147483648, IntType::Long),
        (b"4294967295", 4294967295, IntType::Long),
        (b"0x7fffffff", 2147483647, IntType::Int),
        (b"0xffffffff", 4294967295, IntType::UnsignedInt),
        (b"037777777777", 4294967295, IntType::UnsignedInt),
        (b"0x100000000", 4294967296, IntType::Long),
        (
            b"0x8000000000000000",
            9223372036854775808,
            IntType::UnsignedLong,
        ),
        (b"9223372036854775807", 9223372036854775807, IntType::Long),
        (b"1u", 1, IntType::UnsignedInt),
        (b"4294967296U", 4294967296, IntType::UnsignedLong),
        (b"1l", 1, IntType::Long),
        (b"1uL", 1, IntType::UnsignedLong),
        (b"1Lu", 1, IntType::UnsignedLong),
        (b"0XaBL", 171, IntType::Long),
        (
            b"0xffffffffffffffffL",
            18446744073709551615,
            IntType::UnsignedLong,
        ),
        (
            b"18446744073709551615u",
            18446744073709551615,
            IntType::UnsignedLong,
        ),
        (b"'a'", 97, IntType::Int),
        (b"'\"'", 34, IntType::Int),
        (b"'#'", 35, IntType::Int),
        (b"'\\n'", 10, IntType::Int),
        (b"'\\''", 39, IntType::Int),
        (b"'\\?'", 63, IntType::Int),
        (b"'\\0'", 0, IntType::Int),
        (b"'\\177'", 127, IntType::Int),
        (b"'\\377'", -1, IntType::Int),
        (b"'\\x7f'", 127, IntType::Int),
        (b"'\\x80'", -128, IntType::Int),
        (b"'\\xF'", 15, IntType::Int),
    ];
    for (text, value, number_type) in rows {
        assert_token(&rt, text, TokenKind::Number(value, number_type));
    }
}

#[test]
fn words_are_names_or_keywords(rt: HostRuntime) {
    let rows: [(&[u8], TokenKind); 8] = [
        (b"_Bool", TokenKind::Key(Keyword::Bool)),
        (b"while", TokenKind::Key(Keyword::While)),
        (b"EOF", TokenKind::EofName),
        (b"EOF_", TokenKind::Name),
        (b"int1", TokenKind::Name),
        (b"_", TokenKind::Name),
        (b"gotox", TokenKind::Name),
        (b"Int", TokenKind::Name),
    ];
    for (text, kind) in rows {
        assert_token(&rt, text, kind);
    }
}

#[test]
fn faults_have_their_place(rt: HostRuntime) {
    let rows: [(&[u8], LexFault); 45] = [
        (
            b"int main(void) { goto x; }",
            LexFault::LeftOut(LeftWord::Goto, 17),
        ),
        (b"x = sizeof y", LexFault::LeftOut(LeftWord::SizeOf, 4)),
        (
            b"_Static_assert",
            LexFault::LeftOut(LeftWord::StaticAssert, 0),
        ),
        (b"a \"b\"", LexFault::LeftOut(LeftWord::Quote, 2)),
        (b"#define", LexFault::LeftOut(LeftWord::Hash, 0)),
        (b" #include <stdio.h>", LexFault::LeftOut(LeftWord::Hash, 1)),
        (b"#include <stdio.h>;", LexFault::LeftOut(LeftWord::Hash, 0)),
        (b"#include  <stdio.h>", LexFault::LeftOut(LeftWord::Hash, 0)),
        (b"#include <math.h>\n", LexFault::LeftOut(LeftWord::Hash, 0)),
        (
            b"/**/#include <stdio.h>",
            LexFault::LeftOut(LeftWord::Hash, 4),
        ),
        (b"0x", LexFault::BadNumber(0)),
        (b"0xg", LexFault::BadNumber(0)),
        (b"08", LexFault::BadNumber(0)),
        (b"1.5", LexFault::BadNumber(0)),
        (b"1e5", LexFault::BadNumber(0)),
        (b"1ll", LexFault::BadNumber(0)),
        (b"1uu", LexFault::BadNumber(0)),
        (b"a 1int", LexFault::BadNumber(2)),
        (b"1_", LexFault::BadNumber(0)),
        (b"9223372036854775808", LexFault::BigLiteral(0)),
        (b"9223372036854775808l", LexFault::BigLiteral(0)),
        (b"18446744073709551616u", LexFault::BigLiteral(0)),
        (b"+0x10000000000000000", LexFault::BigLiteral(1)),
        (b"/*", LexFault::OpenComment(0)),
        (b"/*/", LexFault::OpenComment(0)),
        (b"a\n/* * /", LexFault::OpenComment(2)),
        (b"'", LexFault::BadByte(1)),
        (b"''", LexFault::BadByte(1)),
        (b"'a", LexFault::BadByte(2)),
        (b"'ab'", LexFault::BadByte(2)),
        (b"'\n'", LexFault::BadByte(1)),
        (b"'\x7f'", LexFault::BadByte(1)),
        (b"'\\", LexFault::BadByte(2)),
        (b"'\\8'", LexFault::BadByte(2)),
        (b"'\\x'", LexFault::BadByte(3)),
        (b"'\\x123'", LexFault::BadByte(5)),
        (b"'\\400'", LexFault::BadByte(4)),
        (b"'\\1234'", LexFault::BadByte(5)),
        (b"'\\777", LexFault::BadByte(4)),
        (b"a.b", LexFault::BadByte(1)),
        (b"int a\0;", LexFault::BadByte(5)),
        (b"\\", LexFault::BadByte(0)),
        (b"a $", LexFault::BadByte(2)),
        (b"\xff\xff", LexFault::BadByte(0)),
        (b"1 @ /*", LexFault::BadByte(2)),
    ];
    for (text, fault) in rows {
        assert_fault(&rt, text, fault);
    }
}

#[test]
fn texts_are_cut_into_tokens(rt: HostRuntime) {
    let name = TokenKind::Name;
    let plus_plus = TokenKind::Mark(Punct::PlusPlus);
    let plus = TokenKind::Mark(Punct::Plus);
    let slash = TokenKind::Mark(Punct::Slash);
    let shift = TokenKind::Mark(Punct::ShiftLeftAssign);
    let int = TokenKind::Key(Keyword::Int);
    let rows: [(&[u8], &[Token]); 10] = [
        (b"", &[]),
        (b" \t\r\n\x0b\x0c", &[]),
        (
            b"+++++",
            &[
                token(plus_plus, 0, 2, 1),
                token(plus_plus, 2, 4, 1),
                token(plus, 4, 5, 1),
            ],
        ),
        (b"a\r\nb\r\n", &[token(name, 0, 1, 1), token(name, 3, 4, 2)]),
        (
            b"a<<=b",
            &[
                token(name, 0, 1, 1),
                token(shift, 1, 4, 1),
                token(name, 4, 5, 1),
            ],
        ),
        (
            b"a/**/b//c\n/d",
            &[
                token(name, 0, 1, 1),
                token(name, 5, 6, 1),
                token(slash, 10, 11, 2),
                token(name, 11, 12, 2),
            ],
        ),
        (b"/*\n/* \"#'\xff\0*/\nint//", &[token(int, 14, 17, 3)]),
        (b"#include <stdio.h>\nint", &[token(int, 19, 22, 2)]),
        (b"int\n#include <stdlib.h>", &[token(int, 0, 3, 1)]),
        (
            b"#include <stdio.h> \t\r\n#include <stdlib.h>\r\nint",
            &[token(int, 43, 46, 3)],
        ),
    ];
    for (text, tokens) in rows {
        assert_tokens(&rt, text, tokens);
    }
}

#[test]
fn each_byte_alone(rt: HostRuntime) {
    for byte in 0..=255u8 {
        let text: &[u8] = &[byte];
        let fault = match byte {
            b'\'' => Some(LexFault::BadByte(1)),
            b'#' => Some(LexFault::LeftOut(LeftWord::Hash, 0)),
            b'"' => Some(LexFault::LeftOut(LeftWord::Quote, 0)),
            b'$' | b'.' | b'@' | b'\\' | b'`' | 0..=8 | 14..=31 | 127..=255 => {
                Some(LexFault::BadByte(0))
            }
            _ => None,
        };
        assert_eq!(rt; fault_of(&rt, text), fault, "of {byte}");
    }
}

#[test]
fn long_texts(rt: HostRuntime) -> Result<(), Fail> {
    let zeros = vec![in rt.alloc(); b'0'; 1_048_576]?;
    assert_token(&rt, &zeros, TokenKind::Number(0, IntType::Int));
    let nines = vec![in rt.alloc(); b'9'; 1_048_576]?;
    assert_fault(&rt, &nines, LexFault::BigLiteral(0));
    let letters = vec![in rt.alloc(); b'x'; 1_048_576]?;
    assert_token(&rt, &letters, TokenKind::Name);
    let lines = vec![in rt.alloc(); b'\n'; 1_048_576]?;
    assert_tokens(&rt, &lines, &[]);
    let stars = vec![in rt.alloc(); b'*'; 20_000]?;
    assert_eq!(rt; count_of(&rt, &stars), Some(20_000));
    Ok(())
}
