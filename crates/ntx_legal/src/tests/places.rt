//! Where a line may end.

use super::paragraph::{is_in_range, paragraph};
use crate::places;
use ntx_item::{Param, Params};
use std::test;

#[test]
fn lines_end_at_legal_places(rt: HostRuntime) -> Result<(), test::Fail> {
    let table = [
        ("", false, [1, 0, 0, 0]),
        ("a", false, [2, 0, 0, 0]),
        ("a ", false, [2, 3, 0, 0]),
        ("a a", false, [2, 4, 0, 0]),
        (" a", false, [3, 0, 0, 0]),
        ("b ", false, [2, 3, 0, 0]),
        ("r ", false, [2, 3, 0, 0]),
        ("k ", false, [1, 3, 0, 0]),
        ("n ", false, [2, 3, 0, 0]),
        ("p ", false, [1, 3, 0, 0]),
        ("P ", false, [3, 0, 0, 0]),
        ("q", false, [1, 2, 0, 0]),
        ("F", false, [1, 2, 0, 0]),
        ("-", false, [2, 0, 0, 0]),
        ("-", true, [1, 2, 0, 0]),
        ("=", false, [2, 0, 0, 0]),
        ("=", true, [1, 2, 0, 0]),
        ("- ", false, [2, 3, 0, 0]),
        ("e", false, [1, 2, 0, 0]),
        ("d", false, [1, 2, 0, 0]),
        ("d ", false, [1, 2, 3, 0]),
        ("  a", false, [4, 0, 0, 0]),
        ("a  a", false, [2, 5, 0, 0]),
        ("ka", false, [3, 0, 0, 0]),
        ("kk ", false, [2, 4, 0, 0]),
        ("kn ", false, [3, 4, 0, 0]),
        ("nk ", false, [2, 4, 0, 0]),
        ("aa aa aa aaPi", false, [3, 6, 9, 14]),
        ("a-a d", true, [2, 4, 5, 6]),
        ("a-a d", false, [4, 5, 6, 0]),
    ];
    let params = Params::plain();
    for (text, discs, wanted) in table {
        let items = paragraph(rt.alloc(), text)?;
        assert!(rt; is_in_range(&items));
        let mut found = places(rt.alloc(), &items, &params, discs)?;
        for _ in found.len()..4 {
            found.push(0)?;
        }
        assert!(rt; found.as_slice() == wanted.as_slice(), "{text}");
    }
    Ok(())
}

#[test]
fn a_penalty_of_10000_forbids_hyphens(rt: HostRuntime) -> Result<(), test::Fail> {
    let table = [
        ("-", Param::Hyphenpenalty, 10_000, 1),
        ("-", Param::Hyphenpenalty, 9_999, 2),
        ("-", Param::Exhyphenpenalty, 10_000, 2),
        ("=", Param::Exhyphenpenalty, 10_000, 1),
        ("=", Param::Exhyphenpenalty, 9_999, 2),
        ("=", Param::Hyphenpenalty, 10_000, 2),
        ("e", Param::Exhyphenpenalty, 20_000, 1),
        ("d", Param::Hyphenpenalty, -20_000, 2),
    ];
    for (text, param, penalty, count) in table {
        let mut params = Params::plain();
        assert!(rt; params.put(param, penalty).is_ok());
        let items = paragraph(rt.alloc(), text)?;
        assert!(rt; is_in_range(&items));
        let found = places(rt.alloc(), &items, &params, true)?;
        assert!(rt; found.len() == count, "{text}");
    }
    Ok(())
}
