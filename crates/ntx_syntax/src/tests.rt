//! Scripts whose tokens or whose fault is written out by hand.

use crate::{
    Sort, SyntaxFault, SyntaxWhy, cut_is_one, is_refused_as_computed, lexes_as_computed,
    lexes_once, numeral_value, numerals_have_values, text_value, texts_have_values, tokens,
    tokens_stand_in_order,
};
use ntx_num::Fail;
use std::alloc::Global;
use std::test::Fail as TestFail;

/// Scripts, and the sort, the start, the end and the line of each of their tokens.
static ACCEPTED: [(&[u8], &[(Sort, u64, u64, u64)]); 85] = [
    (b"+", &[(Sort::Symbol, 0, 1, 1)]),
    (b"-", &[(Sort::Symbol, 0, 1, 1)]),
    (b"*", &[(Sort::Symbol, 0, 1, 1)]),
    (b"//", &[(Sort::Symbol, 0, 2, 1)]),
    (b"%", &[(Sort::Symbol, 0, 1, 1)]),
    (b"&", &[(Sort::Symbol, 0, 1, 1)]),
    (b"~", &[(Sort::Symbol, 0, 1, 1)]),
    (b"|", &[(Sort::Symbol, 0, 1, 1)]),
    (b"<<", &[(Sort::Symbol, 0, 2, 1)]),
    (b">>", &[(Sort::Symbol, 0, 2, 1)]),
    (b"#", &[(Sort::Symbol, 0, 1, 1)]),
    (b"==", &[(Sort::Symbol, 0, 2, 1)]),
    (b"~=", &[(Sort::Symbol, 0, 2, 1)]),
    (b"<=", &[(Sort::Symbol, 0, 2, 1)]),
    (b">=", &[(Sort::Symbol, 0, 2, 1)]),
    (b"<", &[(Sort::Symbol, 0, 1, 1)]),
    (b">", &[(Sort::Symbol, 0, 1, 1)]),
    (b"=", &[(Sort::Symbol, 0, 1, 1)]),
    (b"(", &[(Sort::Symbol, 0, 1, 1)]),
    (b")", &[(Sort::Symbol, 0, 1, 1)]),
    (b"{", &[(Sort::Symbol, 0, 1, 1)]),
    (b"}", &[(Sort::Symbol, 0, 1, 1)]),
    (b"[", &[(Sort::Symbol, 0, 1, 1)]),
    (b"]", &[(Sort::Symbol, 0, 1, 1)]),
    (b";", &[(Sort::Symbol, 0, 1, 1)]),
    (b",", &[(Sort::Symbol, 0, 1, 1)]),
    (b".", &[(Sort::Symbol, 0, 1, 1)]),
    (b"..", &[(Sort::Symbol, 0, 2, 1)]),
    (b"", &[]),
    (b" \t\r\n", &[]),
    (b"<<=", &[(Sort::Symbol, 0, 2, 1), (Sort::Symbol, 2, 3, 1)]),
    (b">>>=", &[(Sort::Symbol, 0, 2, 1), (Sort::Symbol, 2, 4, 1)]),
    (b"===", &[(Sort::Symbol, 0, 2, 1), (Sort::Symbol, 2, 3, 1)]),
    (b"~==", &[(Sort::Symbol, 0, 2, 1), (Sort::Symbol, 2, 3, 1)]),
    (b"////", &[(Sort::Symbol, 0, 2, 1), (Sort::Symbol, 2, 4, 1)]),
    (
        b"a.. .",
        &[
            (Sort::Name, 0, 1, 1),
            (Sort::Symbol, 1, 3, 1),
            (Sort::Symbol, 4, 5, 1),
        ],
    ),
    (b"]]", &[(Sort::Symbol, 0, 1, 1), (Sort::Symbol, 1, 2, 1)]),
    (b"and", &[(Sort::Keyword, 0, 3, 1)]),
    (b"break", &[(Sort::Keyword, 0, 5, 1)]),
    (b"do", &[(Sort::Keyword, 0, 2, 1)]),
    (b"else", &[(Sort::Keyword, 0, 4, 1)]),
    (b"elseif", &[(Sort::Keyword, 0, 6, 1)]),
    (b"end", &[(Sort::Keyword, 0, 3, 1)]),
    (b"false", &[(Sort::Keyword, 0, 5, 1)]),
    (b"for", &[(Sort::Keyword, 0, 3, 1)]),
    (b"function", &[(Sort::Keyword, 0, 8, 1)]),
    (b"goto", &[(Sort::Keyword, 0, 4, 1)]),
    (b"if", &[(Sort::Keyword, 0, 2, 1)]),
    (b"in", &[(Sort::Keyword, 0, 2, 1)]),
    (b"local", &[(Sort::Keyword, 0, 5, 1)]),
    (b"nil", &[(Sort::Keyword, 0, 3, 1)]),
    (b"not", &[(Sort::Keyword, 0, 3, 1)]),
    (b"or", &[(Sort::Keyword, 0, 2, 1)]),
    (b"repeat", &[(Sort::Keyword, 0, 6, 1)]),
    (b"return", &[(Sort::Keyword, 0, 6, 1)]),
    (b"then", &[(Sort::Keyword, 0, 4, 1)]),
    (b"true", &[(Sort::Keyword, 0, 4, 1)]),
    (b"until", &[(Sort::Keyword, 0, 5, 1)]),
    (b"while", &[(Sort::Keyword, 0, 5, 1)]),
    (b"andy", &[(Sort::Name, 0, 4, 1)]),
    (
        b"_a1Z\nend",
        &[(Sort::Name, 0, 4, 1), (Sort::Keyword, 5, 8, 2)],
    ),
    (b"End", &[(Sort::Name, 0, 3, 1)]),
    (b"0", &[(Sort::Numeral, 0, 1, 1)]),
    (b"9223372036854775807", &[(Sort::Numeral, 0, 19, 1)]),
    (b"0009223372036854775807", &[(Sort::Numeral, 0, 22, 1)]),
    (b"0x7f", &[(Sort::Numeral, 0, 4, 1)]),
    (b"0xffffffffffffffffFF", &[(Sort::Numeral, 0, 20, 1)]),
    (
        b"3-3",
        &[
            (Sort::Numeral, 0, 1, 1),
            (Sort::Symbol, 1, 2, 1),
            (Sort::Numeral, 2, 3, 1),
        ],
    ),
    (b"''", &[(Sort::Text, 0, 2, 1)]),
    (b"\"a'b\"", &[(Sort::Text, 0, 5, 1)]),
    (
        b"\"\\a\\b\\f\\n\\r\\t\\v\\\\\\\"\\'\"",
        &[(Sort::Text, 0, 22, 1)],
    ),
    (b"\"\\0\\65\\255\\x41\\xfF\"", &[(Sort::Text, 0, 19, 1)]),
    (b"\"\\2555\"", &[(Sort::Text, 0, 7, 1)]),
    (b"\"\\25x\\9\"", &[(Sort::Text, 0, 8, 1)]),
    (
        b"\"\r\xff\x00\"\r\na",
        &[(Sort::Text, 0, 5, 1), (Sort::Name, 7, 8, 2)],
    ),
    (b"--", &[]),
    (b"-- a", &[]),
    (b"-- \xff\r \na", &[(Sort::Name, 7, 8, 2)]),
    (b"--[[a\nb]]c", &[(Sort::Name, 9, 10, 2)]),
    (b"--[==[a]]]=]\n]==]c", &[(Sort::Name, 17, 18, 2)]),
    (b"--[=a]]\nb", &[(Sort::Name, 8, 9, 2)]),
    (b"--[[]]", &[]),
    (b"--[=[]]=]", &[]),
    (
        b"- --\n-",
        &[(Sort::Symbol, 0, 1, 1), (Sort::Symbol, 5, 6, 2)],
    ),
    (
        b"a\r\nb\rc\n\nd",
        &[
            (Sort::Name, 0, 1, 1),
            (Sort::Name, 3, 4, 2),
            (Sort::Name, 5, 6, 2),
            (Sort::Name, 8, 9, 4),
        ],
    ),
];

/// Scripts that are refused, with the line and the reason.
static REFUSED: [(&[u8], u64, SyntaxWhy); 47] = [
    (b"a / b", 1, SyntaxWhy::Symbol),
    (b"x = 3a", 1, SyntaxWhy::Number),
    (b"...", 1, SyntaxWhy::Symbol),
    (b"....", 1, SyntaxWhy::Symbol),
    (b"a\n::", 2, SyntaxWhy::Symbol),
    (b":", 1, SyntaxWhy::Symbol),
    (b"/", 1, SyntaxWhy::Symbol),
    (b"///", 1, SyntaxWhy::Symbol),
    (b"^", 1, SyntaxWhy::Symbol),
    (b"[[", 1, SyntaxWhy::Symbol),
    (b"a[=", 1, SyntaxWhy::Symbol),
    (b"[[a]]", 1, SyntaxWhy::Symbol),
    (b"9223372036854775808", 1, SyntaxWhy::Number),
    (b"3_", 1, SyntaxWhy::Number),
    (b"3.", 1, SyntaxWhy::Number),
    (b"3..4", 1, SyntaxWhy::Number),
    (b"0x", 1, SyntaxWhy::Number),
    (b"0X1F", 1, SyntaxWhy::Number),
    (b"0xg", 1, SyntaxWhy::Number),
    (b"0x1g", 1, SyntaxWhy::Number),
    (b"\"a", 1, SyntaxWhy::Text),
    (b"\"a\nb\"", 1, SyntaxWhy::Text),
    (b"\n'a\"", 2, SyntaxWhy::Text),
    (b"\"\\q\"", 1, SyntaxWhy::Text),
    (b"\"\\256\"", 1, SyntaxWhy::Text),
    (b"\"\\x4\"", 1, SyntaxWhy::Text),
    (b"\"\\xg1\"", 1, SyntaxWhy::Text),
    (b"\"\\\n\"", 1, SyntaxWhy::Text),
    (b"\"\\", 1, SyntaxWhy::Text),
    (b"\"\\\"", 1, SyntaxWhy::Text),
    (b"\"\\u\"", 1, SyntaxWhy::Text),
    (b"\n--[[a\n\n]=]", 2, SyntaxWhy::Comment),
    (b"--[==[]=]", 1, SyntaxWhy::Comment),
    (b"a --[[", 1, SyntaxWhy::Comment),
    (b"!", 1, SyntaxWhy::Byte),
    (b"a\r\n\r\n@", 3, SyntaxWhy::Byte),
    (b"\r\r$", 1, SyntaxWhy::Byte),
    (b"a\xc3\xa9", 1, SyntaxWhy::Byte),
    (b"3\xff", 1, SyntaxWhy::Byte),
    (b"\x0b", 1, SyntaxWhy::Byte),
    (b"\x0c", 1, SyntaxWhy::Byte),
    (b"\x00", 1, SyntaxWhy::Byte),
    (b"\\", 1, SyntaxWhy::Byte),
    (b"`", 1, SyntaxWhy::Byte),
    (b"?", 1, SyntaxWhy::Byte),
    (b"a ! \"", 1, SyntaxWhy::Byte),
    (b"\"a\" 3a !", 1, SyntaxWhy::Number),
];

/// The table of scripts with tokens.
fn accepted() -> &'static [(&'static [u8], &'static [(Sort, u64, u64, u64)])] {
    &ACCEPTED
}

/// The table of refused scripts.
fn refused() -> &'static [(&'static [u8], u64, SyntaxWhy)] {
    &REFUSED
}

/// The fault for which a script is refused, if it is refused.
fn fault_of(alloc: Global, script: &[u8]) -> Option<SyntaxFault> {
    match tokens(alloc, script) {
        Err(Fail::Is(fault)) => Some(fault),
        _ => None,
    }
}

#[test]
fn cuts_scripts_into_tokens(rt: HostRuntime) -> Result<(), TestFail> {
    for (row, (script, want)) in accepted().iter().enumerate() {
        let Ok(found) = tokens(rt.alloc(), script) else {
            panic!(&rt; "row {row} is refused");
        };
        assert_eq!(rt; found.len(), want.len(), "row {row}");
        for (token, (sort, start, end, line)) in found.iter().zip(want.iter()) {
            assert_eq!(rt; token.sort, *sort, "row {row}");
            assert_eq!(rt; token.start, *start, "row {row}");
            assert_eq!(rt; token.end, *end, "row {row}");
            assert_eq!(rt; token.line, *line, "row {row}");
        }
    }
    Ok(())
}

#[test]
fn refuses_scripts_at_their_first_fault(rt: HostRuntime) -> Result<(), TestFail> {
    for (row, (script, line, why)) in refused().iter().enumerate() {
        let want = SyntaxFault {
            line: *line,
            why: *why,
        };
        assert_eq!(rt; fault_of(rt.alloc(), script), Some(want), "row {row}");
    }
    Ok(())
}

#[test]
fn numerals_wrap_only_in_hexadecimal(rt: HostRuntime) {
    assert_eq!(rt; numeral_value(b"0042"), 42);
    assert_eq!(rt; numeral_value(b"9223372036854775807"), i64::MAX);
    assert_eq!(rt; numeral_value(b"0x7f"), 127);
    assert_eq!(rt; numeral_value(b"0xffffffffffffffff"), -1);
    assert_eq!(rt; numeral_value(b"0x8000000000000000"), i64::MIN);
    assert_eq!(rt;
        numeral_value(b"0x1230000000000000f1"),
        0x3000_0000_0000_00f1
    );
}

#[test]
fn escapes_stand_for_bytes(rt: HostRuntime) -> Result<(), TestFail> {
    let empty = text_value(rt.alloc(), b"''")?;
    assert_eq!(rt; empty.as_slice(), b"".as_slice());
    let letters = text_value(rt.alloc(), b"'\\a\\b\\f\\n\\r\\t\\v\\\\\\'\\\"'")?;
    assert_eq!(rt;
        letters.as_slice(),
        [7, 8, 12, 10, 13, 9, 11, 92, 39, 34].as_slice()
    );
    let numbers = text_value(rt.alloc(), b"\"\\0\\65\\2555\\x4a\\xFf'\"")?;
    assert_eq!(rt;
        numbers.as_slice(),
        [0, 65, 255, 53, 74, 255, 39].as_slice()
    );
    Ok(())
}

#[test]
fn reasons_have_names(rt: HostRuntime) {
    assert_eq!(rt; SyntaxWhy::Byte.name(), "Byte");
    assert_eq!(rt; SyntaxWhy::Size.name(), "Size");
}
