//! Runs with fonts.

use crate::job::{BOX, BOX_FILE, FILES, FontFile, Given, Job, of_document};
use ntx_patterns::PatternFault;
use ntx_run::{Place, Status, Which};
use ntx_tfm::FontFault;
use std::alloc::{AllocError, Global};
use std::process::Abort;
use std::test::Fail;

/// Files and one font at its design size.
const ONE_FONT: [&str; 5] = ["box.txt", "script.lua", "patterns.txt", "box.dvi", "T.tfm"];

/// The word of a character's size and program.
fn char_word(code: u8) -> [u8; 4] {
    match code {
        102 => [1, 16, 1, 0],
        48 => [1, 16, 1, 2],
        97 => [1, 16, 1, 3],
        45 | 49 | 50 | 98..=122 => [1, 16, 0, 0],
        _ => [0; 4],
    }
}

/// The file of a small font with these lengths: the characters `-`, `0`, `1`, `2` and `a` to `z`, of which `0`, `a` and `f` have programs.
pub fn font_of(alloc: Global, words: u16, operation: u8) -> Result<Vec<u8>, AllocError> {
    let mut file = Vec::new(alloc);
    for n in [words, 2, 45, 122, 2, 2, 1, 1, 4, 1, 0, 4] {
        file.extend_from_slice(&n.to_be_bytes())?;
    }
    for word in [0u32, 0x00a0_0000] {
        file.extend_from_slice(&word.to_be_bytes())?;
    }
    for code in 45..123u8 {
        file.extend_from_slice(&char_word(code))?;
    }
    for word in [0u32, 0x0008_0000, 0, 0x0007_0000, 0, 0] {
        file.extend_from_slice(&word.to_be_bytes())?;
    }
    for step in [
        [0u8, 105, operation, 49],
        [128, 102, 0, 48],
        [128, 105, 0, 50],
        [128, 118, 128, 0],
    ] {
        file.extend_from_slice(&step)?;
    }
    for word in [0xffff_0000u32, 0, 0x0004_0000, 0x0002_0000, 0x0001_0000] {
        file.extend_from_slice(&word.to_be_bytes())?;
    }
    Ok(file)
}

fn run(alloc: Global, words: &[&str], fonts: &[FontFile]) -> Result<Given, Fail> {
    Job {
        words,
        fonts,
        ..of_document(BOX)
    }
    .run(alloc)
}

fn named<'a>(name: &'a str, bytes: &'a [u8]) -> FontFile<'a> {
    FontFile {
        name,
        bytes,
        fails: None,
    }
}

/// Asserts that a run with this font alone is refused for it.
fn refuses(
    rt: &(impl Abort + AllocGlobal),
    bytes: &[u8],
    fault: FontFault,
    line: &str,
) -> Result<(), Fail> {
    let given = run(rt.alloc(), &ONE_FONT, &[named("T", bytes)])?;
    assert_eq!(rt; given.outcome.status, Status::Font, "{line}");
    assert_eq!(rt; given.outcome.place, Some(Place::FontAt(1, fault)));
    assert_eq!(rt; given.lines.as_slice(), line.as_bytes());
    assert_eq!(rt; given.dvi.len(), 0, "{line}");
    Ok(())
}

/// Asserts that a run with this font alone ends well.
fn takes(rt: &(impl Abort + AllocGlobal), bytes: &[u8]) -> Result<(), Fail> {
    let given = run(rt.alloc(), &ONE_FONT, &[named("T", bytes)])?;
    assert_eq!(rt; given.outcome.status, Status::Done);
    assert_eq!(rt; given.dvi.as_slice(), BOX_FILE.as_slice());
    Ok(())
}

#[test]
fn a_damaged_font_is_refused_with_its_fault(rt: HostRuntime) -> Result<(), Fail> {
    let alloc = rt.alloc();
    let whole = font_of(alloc, 101, 0)?;
    takes(&rt, whole.as_slice())?;
    match whole.get(..403) {
        Some(short) => refuses(&rt, short, FontFault::Short, "! Font 1 Short\n")?,
        None => assert!(rt; false),
    }
    let longer = font_of(alloc, 102, 0)?;
    refuses(
        &rt,
        longer.as_slice(),
        FontFault::Lengths,
        "! Font 1 Lengths\n",
    )?;
    let operation = font_of(alloc, 101, 4)?;
    let fault = FontFault::LigProgram;
    refuses(&rt, operation.as_slice(), fault, "! Font 1 LigProgram\n")?;
    Ok(())
}

#[test]
fn a_font_that_is_too_large_is_refused(rt: HostRuntime) -> Result<(), Fail> {
    let mut font = font_of(rt.alloc(), 101, 0)?;
    for _ in font.len()..1 << 18 {
        font.push(0)?;
    }
    takes(&rt, font.as_slice())?;
    font.push(0)?;
    refuses(
        &rt,
        font.as_slice(),
        FontFault::TooLarge,
        "! Font 1 TooLarge\n",
    )?;
    Ok(())
}

#[test]
fn fonts_are_read_in_order_after_the_patterns(rt: HostRuntime) -> Result<(), Fail> {
    let alloc = rt.alloc();
    let whole = font_of(alloc, 101, 0)?;
    let words: [&str; 6] = ["a", "b", "c", "d", "T.tfm@655360", "U@1"];
    let fonts = [named("T", whole.as_slice()), named("U", b"")];
    let second = run(alloc, &words, &fonts)?;
    assert_eq!(rt; second.lines.as_slice(), b"! Font 2 Short\n".as_slice());
    assert_eq!(rt;
        second.outcome.place,
        Some(Place::FontAt(2, FontFault::Short))
    );
    let patterns = Job {
        words: &words,
        patterns: b"y",
        fonts: &fonts,
        ..of_document(BOX)
    }
    .run(alloc)?;
    assert_eq!(rt;
        patterns.lines.as_slice(),
        b"! Patterns line 0\n".as_slice()
    );
    assert_eq!(rt;
        patterns.outcome.place,
        Some(Place::Pattern(PatternFault { line: 0 }))
    );
    Ok(())
}

#[test]
fn a_feed_that_fails_ends_the_run_with_its_line(rt: HostRuntime) -> Result<(), Fail> {
    let alloc = rt.alloc();
    let whole = font_of(alloc, 101, 0)?;
    for k in 1..9 {
        let font = FontFile {
            fails: Some(k),
            ..named("T", whole.as_slice())
        };
        let given = run(alloc, &ONE_FONT, &[font])?;
        if k <= 2 {
            assert_eq!(rt; given.outcome.status, Status::ReadFault, "call {k}");
            assert_eq!(rt; given.outcome.place, Some(Place::Input(Which::Font(1))));
            assert_eq!(rt; given.lines.as_slice(), b"! ReadFault font 1\n".as_slice());
            assert_eq!(rt; given.dvi.len(), 0);
        } else {
            assert_eq!(rt; given.outcome.status, Status::Done, "call {k}");
            assert_eq!(rt; given.dvi.as_slice(), BOX_FILE.as_slice());
        }
    }
    Ok(())
}

/// Asserts how a run with a font of this name ends.
fn ends(rt: &(impl Abort + AllocGlobal), name: &str, status: Status) -> Result<(), Fail> {
    let bytes = font_of(rt.alloc(), 101, 0)?;
    let given = run(rt.alloc(), &ONE_FONT, &[named(name, bytes.as_slice())])?;
    assert_eq!(rt; given.outcome.status, status, "{name}");
    Ok(())
}

#[test]
fn feeds_have_names_of_visible_bytes(rt: HostRuntime) -> Result<(), Fail> {
    for (name, status) in [
        ("!", Status::Done),
        ("~", Status::Done),
        ("", Status::Words),
        ("T U", Status::Words),
        ("T\u{7f}", Status::Words),
        ("\u{e9}", Status::Words),
    ] {
        ends(&rt, name, status)?;
    }
    Ok(())
}

#[test]
fn a_feed_has_a_name_of_at_most_255_bytes(rt: HostRuntime) -> Result<(), Fail> {
    let mut name = String::new(rt.alloc());
    for _ in 0..255 {
        name.push_str("~")?;
    }
    ends(&rt, name.as_str(), Status::Done)?;
    name.push_str("!")?;
    ends(&rt, name.as_str(), Status::Words)?;
    Ok(())
}

#[test]
fn there_are_as_many_feeds_as_fonts(rt: HostRuntime) -> Result<(), Fail> {
    let alloc = rt.alloc();
    let whole = font_of(alloc, 101, 0)?;
    let font = named("T", whole.as_slice());
    let none = run(alloc, &ONE_FONT, &[])?;
    assert_eq!(rt; none.outcome.status, Status::Words);
    let two = run(alloc, &ONE_FONT, &[font, font])?;
    assert_eq!(rt; two.outcome.status, Status::Words);
    let unnamed = run(alloc, &FILES, &[font])?;
    assert_eq!(rt; unnamed.outcome.status, Status::Words);
    Ok(())
}
