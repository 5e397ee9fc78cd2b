use super::*;
use ntx_tfm::read_font;
use std::alloc::{AllocError, Global};
use std::test::Fail;

/// A small font: the characters `-`, `0`, `1`, `2` and `a` to `z`, of which `0`, `a` and `f` have programs.
fn small_font(alloc: Global) -> Result<Vec<u8>, AllocError> {
    let mut out = Vec::new(alloc);
    for n in [101u16, 2, 45, 122, 2, 2, 1, 1, 4, 1, 0, 4] {
        out.extend_from_slice(&n.to_be_bytes())?;
    }
    for word in [0u32, 0x00a0_0000] {
        out.extend_from_slice(&word.to_be_bytes())?;
    }
    for code in 45..123u8 {
        out.extend_from_slice(&char_word(code))?;
    }
    for word in [0u32, 0x0008_0000, 0, 0x0007_0000, 0, 0] {
        out.extend_from_slice(&word.to_be_bytes())?;
    }
    for step in [
        [0u8, 105, 0, 49],
        [128, 102, 0, 48],
        [128, 105, 0, 50],
        [128, 118, 128, 0],
    ] {
        out.extend_from_slice(&step)?;
    }
    for word in [0xffff_0000u32, 0, 0x0004_0000, 0x0002_0000, 0x0001_0000] {
        out.extend_from_slice(&word.to_be_bytes())?;
    }
    Ok(out)
}

/// The word of a character: width 1, height 1, and a program where it has one.
fn char_word(code: u8) -> [u8; 4] {
    match code {
        b'f' => [1, 0x10, 1, 0],
        b'0' => [1, 0x10, 1, 2],
        b'a' => [1, 0x10, 1, 3],
        b'-' | b'1' | b'2' | b'b'..=b'z' => [1, 0x10, 0, 0],
        _ => [0, 0, 0, 0],
    }
}

#[test]
fn pairs_are_those_of_the_first_step_that_applies(rt: HostRuntime) -> Result<(), Fail> {
    let bytes = small_font(rt.alloc())?;
    let font = read_font(rt.alloc(), &bytes, "T", None)?;
    let table = [
        (b'f', b'i', Pair::Lig(0, 49)),
        (b'f', b'f', Pair::Lig(0, 48)),
        (b'f', b'v', Pair::None),
        (b'0', b'i', Pair::Lig(0, 50)),
        (b'a', b'v', Pair::Kern(-40_960)),
        (b'b', b'v', Pair::None),
        (b'A', b'v', Pair::None),
    ];
    for (left, right, want) in table {
        assert_eq!(rt; pair(&font, left, right), want, "{left} {right}");
    }
    Ok(())
}

#[test]
fn programs_jump_skip_and_shadow(rt: HostRuntime) -> Result<(), Fail> {
    let table: [([(usize, u8); 4], u8, Pair); 5] = [
        // The program of `f` begins at step 1, which says that it starts at step 2.
        (
            [(263, 1), (372, 129), (374, 0), (375, 2)],
            b'i',
            Pair::Lig(0, 50),
        ),
        // Step 1 applies to nothing where it only says where a program starts, and ends the program.
        (
            [(372, 129), (372, 129), (374, 0), (375, 2)],
            b'f',
            Pair::None,
        ),
        // Step 1 names `i` as well, and is shadowed by step 0.
        (
            [(373, 105), (373, 105), (373, 105), (373, 105)],
            b'i',
            Pair::Lig(0, 49),
        ),
        // Step 0 passes over step 1.
        ([(368, 1), (368, 1), (368, 1), (368, 1)], b'f', Pair::None),
        // Step 0 passes over steps 1 and 2, and step 3 is a kern.
        (
            [(368, 2), (368, 2), (368, 2), (368, 2)],
            b'v',
            Pair::Kern(-40_960),
        ),
    ];
    for (changes, right, want) in table {
        let mut bytes = small_font(rt.alloc())?;
        for (place, value) in changes {
            assert!(rt; place < bytes.len());
            bytes[place] = value;
        }
        let font = read_font(rt.alloc(), &bytes, "T", None)?;
        assert_eq!(rt; pair(&font, b'f', right), want);
    }
    Ok(())
}
