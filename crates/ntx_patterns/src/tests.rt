use super::*;
use ntx_num::Fail;
use std::alloc::{AllocError, Global};
use std::test;

/// The line at which a file is refused: 0 if it is accepted.
fn refused_line(alloc: Global, file: &str) -> u64 {
    match read_patterns(alloc, file.as_bytes()) {
        Ok(_) => 0,
        Err(Fail::NoMemory) => u64::MAX,
        Err(Fail::Is(fault)) => fault.line,
    }
}

/// A word with hyphens at these points.
fn hyphenated(alloc: Global, word: &str, points: &[u64]) -> Result<String, AllocError> {
    let mut out = String::new(alloc);
    for (i, byte) in word.as_bytes().iter().enumerate() {
        if points.contains(&(i as u64)) {
            out.push('-')?;
        }
        out.push(char::from(*byte))?;
    }
    if points.contains(&(word.len() as u64)) {
        out.push('-')?;
    }
    Ok(out)
}

#[test]
fn a_file_is_accepted_or_refused_at_a_line(rt: HostRuntime) -> Result<(), test::Fail> {
    let table = [
        ("", 0),
        (" \t\r\n", 0),
        ("a", 0),
        ("1a", 0),
        ("a1", 0),
        ("1a1", 0),
        (".a", 0),
        ("a.", 0),
        (".a.", 0),
        (".1a1.", 0),
        ("a1b2c", 0),
        ("a0b 9a9", 0),
        ("%", 0),
        ("%a11b", 0),
        ("a%11", 0),
        ("a1b%x\nc", 0),
        ("\ta \r\nb\r", 0),
        ("a1b a1b a2b", 0),
        ("% x\n% y\n", 0),
        ("%\r!\nb", 0),
        (
            "abcdefghijklmnopqrstuvwxyzabcdefghijklmnopqrstuvwxyzabcdefghijk",
            0,
        ),
        (
            "abcdefghijklmnopqrstuvwxyzabcdefghijklmnopqrstuvwxyzabcdefghijkl",
            1,
        ),
        ("a11b", 1),
        ("11a", 1),
        ("a11", 1),
        ("1", 1),
        (".", 1),
        ("..", 1),
        (".1.", 1),
        ("..a", 1),
        ("a..", 1),
        ("a.b", 1),
        ("1.a", 1),
        ("a.1", 1),
        ("A", 1),
        ("aB", 1),
        ("a-b", 1),
        ("a!%", 1),
        ("a\u{b}b", 1),
        ("é", 1),
        ("a\r!", 1),
        ("%\r!\n!", 2),
        ("a\nb\n1", 3),
        ("a\n\n%x\n!", 4),
        ("a\r\n\r\n!", 3),
        ("ok\nbad! 1\n..", 2),
        ("1a1\n 2b 3 c\n!", 2),
    ];
    for (file, line) in table {
        assert_eq!(rt; refused_line(rt.alloc(), file), line, "{file}");
    }
    Ok(())
}

#[test]
fn patterns_divide_words(rt: HostRuntime) -> Result<(), test::Fail> {
    let table = [
        ("y1p e1n e2na n1a", 2, 3, "hy-phen-ation"),
        ("n1c e1n a1t a2te", 2, 3, "con-cate-na-tion"),
        (
            "u1p r1c l1if g1il s1t c1ex x1p i1al i1d o1c",
            2,
            3,
            "su-per-cal-ifrag-ilis-tic-ex-pi-ali-do-cious",
        ),
        ("b1b", 2, 3, "aab-bbb"),
        ("b1b", 4, 1, "aabb-b-b"),
        ("b1b", 1, 4, "aabbbb"),
        ("b1b", 2, u64::MAX, "aabbbb"),
        ("b1b", u64::MAX, 1, "aabbbb"),
        ("", 1, 1, "ab"),
        ("a1b", 0, 0, ""),
        ("a", 1, 1, "ab"),
        ("a0b", 1, 1, "ab"),
        ("a1b", 1, 1, "A-B"),
        ("a1b", 1, 1, "a.b"),
        ("b1c. a1b.", 1, 1, "ab.c"),
        (".a1b", 1, 1, "a-bab"),
        ("a1b.", 1, 1, "aba-b"),
        (".ab1.", 0, 0, "ab-"),
        (".1ab.", 0, 0, "-ab"),
        (".ab1.", 0, 0, "abc"),
        ("1a1", 0, 0, "-a-"),
        ("1a1", 1, 1, "a"),
        ("a1b a1b", 1, 1, "a-b"),
        ("a1b a2b", 1, 1, "ab"),
        ("a2b a1b", 1, 1, "ab"),
        ("a2b a3b a1b", 1, 1, "a-b"),
        ("a1a", 1, 1, "a-a-a-a"),
        ("ab2c b1c", 1, 1, "abc"),
        ("ab1c b2c", 1, 1, "abc"),
        ("ab3c b2c", 1, 1, "ab-c"),
        ("a1b a2bc a3bcd", 1, 1, "a-bcd"),
        ("a1b a2bc a3bcd", 1, 1, "abc"),
        ("f1f i1c", 2, 3, "dif-fi-cult"),
    ];
    for (file, left, right, divided) in table {
        let patterns = read_patterns(rt.alloc(), file.as_bytes())?;
        let mut word = String::new(rt.alloc());
        for letter in divided.chars() {
            if letter != '-' {
                word.push(letter)?;
            }
        }
        let found = points(rt.alloc(), &patterns, word.as_bytes(), left, right)?;
        let shown = hyphenated(rt.alloc(), word.as_str(), &found)?;
        assert_eq!(rt; shown.as_str(), divided, "{file}");
    }
    Ok(())
}

#[test]
fn points_are_gaps_from_the_left(rt: HostRuntime) -> Result<(), test::Fail> {
    let patterns = read_patterns(rt.alloc(), b"b1b")?;
    let found = points(rt.alloc(), &patterns, b"aabbbb", 2, 3)?;
    assert_eq!(rt; found.as_slice(), [3].as_slice());
    let found = points(rt.alloc(), &patterns, b"aabbbb", 0, 0)?;
    assert_eq!(rt; found.as_slice(), [3, 4, 5].as_slice());
    Ok(())
}
