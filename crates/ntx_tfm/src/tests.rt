use super::*;
use ntx_num::{Fail, Size};
use std::alloc::{AllocError, Global};
use std::test;

/// A small font: the characters `-`, `0`, `1`, `2` and `a` to `z`, of which `0`, `a` and `f` have programs.
fn small_font(alloc: Global) -> Result<Vec<u8>, AllocError> {
    let mut out = Vec::new(alloc);
    for n in [101u16, 2, 45, 122, 2, 2, 1, 1, 4, 1, 0, 4] {
        out.extend_from_slice(&n.to_be_bytes())?;
    }
    for word in [0u32, 0x00a0_0000] {
        out.extend_from_slice(&word.to_be_bytes())?;
    }
    for code in 45..123u8 {
        out.extend_from_slice(&char_word(code))?;
    }
    for word in [0u32, 0x0008_0000, 0, 0x0007_0000, 0, 0] {
        out.extend_from_slice(&word.to_be_bytes())?;
    }
    for step in [
        [0u8, 105, 0, 49],
        [128, 102, 0, 48],
        [128, 105, 0, 50],
        [128, 118, 128, 0],
    ] {
        out.extend_from_slice(&step)?;
    }
    for word in [0xffff_0000u32, 0, 0x0004_0000, 0x0002_0000, 0x0001_0000] {
        out.extend_from_slice(&word.to_be_bytes())?;
    }
    Ok(out)
}

/// The word of a character: width 1, height 1, and a program where it has one.
fn char_word(code: u8) -> [u8; 4] {
    match code {
        b'f' => [1, 0x10, 1, 0],
        b'0' => [1, 0x10, 1, 2],
        b'a' => [1, 0x10, 1, 3],
        b'-' | b'1' | b'2' | b'b'..=b'z' => [1, 0x10, 0, 0],
        _ => [0, 0, 0, 0],
    }
}

/// The name of the fault of the bytes, or nothing where they are a font.
fn fault_of(alloc: Global, bytes: &[u8]) -> &'static str {
    match read_font(alloc, bytes, "T", None) {
        Ok(_) => "",
        Err(Fail::NoMemory) => "NoMemory",
        Err(Fail::Is(fault)) => fault.name(),
    }
}

#[test]
fn a_font_has_its_sizes_and_programs(rt: HostRuntime) -> Result<(), test::Fail> {
    let bytes = small_font(rt.alloc())?;
    assert_eq!(rt; bytes.len(), 404);
    let font = read_font(rt.alloc(), &bytes, "T", None)?;
    let letter = Size {
        w: 327_680,
        h: 286_720,
        d: 0,
    };
    assert_eq!(rt; font.char_size(b'a'), Some(letter));
    assert_eq!(rt; font.char_size(b'A'), None);
    assert_eq!(rt; font.char_size(200), None);
    assert_eq!(rt; font.start(b'f'), Some(0));
    assert_eq!(rt; font.start(b'a'), Some(3));
    assert_eq!(rt; font.start(b'b'), None);
    assert_eq!(rt;
        font.lig_step(2),
        Some(LigStep {
            skip: 128,
            next: 105,
            op: 0,
            rem: 50
        })
    );
    assert_eq!(rt; font.lig_step(4), None);
    assert_eq!(rt; font.kern_of(0), Some(-40_960));
    assert_eq!(rt; font.kern_of(1), None);
    Ok(())
}

#[test]
fn a_font_has_its_parameters_and_definition(rt: HostRuntime) -> Result<(), test::Fail> {
    let bytes = small_font(rt.alloc())?;
    let font = read_font(rt.alloc(), &bytes, "T", Some(65_536))?;
    assert_eq!(rt; [font.param(1), font.param(2)], [0, 16_384]);
    assert_eq!(rt; [font.param(3), font.param(4)], [8_192, 4_096]);
    assert_eq!(rt; [font.param(5), font.param(6)], [0, 0]);
    assert_eq!(rt; font.param(7), 0);
    let def = font.def().try_clone(rt.alloc())?;
    assert_eq!(rt; def.checksum, 0);
    assert_eq!(rt; def.size, 65_536);
    assert_eq!(rt; def.design, 655_360);
    assert_eq!(rt; def.name.as_bytes(), b"T".as_slice());
    scaling_rounds_down();
    Ok(())
}

#[test]
fn sizes_are_scaled_as_tex_scales_them(rt: HostRuntime) -> Result<(), test::Fail> {
    let bytes = small_font(rt.alloc())?;
    let table = [
        (1, 0, -1),
        (8_388_608, 4_194_304, -524_288),
        (67_108_863, 33_554_428, -4_194_304),
    ];
    for (size, width, kern) in table {
        assert!(rt; 1 <= size && size <= 67_108_863);
        let font = read_font(rt.alloc(), &bytes, "T", Some(size))?;
        assert_eq!(rt; font.char_size(b'a').map(|s| s.w), Some(width), "at {size}");
        assert_eq!(rt; font.kern_of(0), Some(kern), "at {size}");
        assert_eq!(rt; font.def().size, size);
    }
    Ok(())
}

#[test]
fn a_first_step_says_where_a_program_starts(rt: HostRuntime) -> Result<(), test::Fail> {
    let mut bytes = small_font(rt.alloc())?;
    assert_eq!(rt; bytes.len(), 404);
    // The program of `f` begins at step 1, which says that it starts at step 2.
    bytes[263] = 1;
    bytes[372] = 129;
    bytes[374] = 0;
    bytes[375] = 2;
    let font = read_font(rt.alloc(), &bytes, "T", None)?;
    assert_eq!(rt; font.start(b'f'), Some(2));
    Ok(())
}

#[test]
fn damaged_fonts_are_refused_with_their_first_fault(rt: HostRuntime) -> Result<(), test::Fail> {
    let table: [(usize, u8, &str); 16] = [
        (0, 0x80, "Range"),
        (9, 0, "Range"),
        (3, 1, "Header"),
        (1, 102, "Lengths"),
        (28, 0x80, "Size"),
        (32, 2, "Index"),
        (344, 1, "FirstNotZero"),
        (348, 1, "FixWord"),
        (384, 0x7f, "FixWord"),
        (388, 7, ""),
        (392, 7, "FixWord"),
        (263, 4, "LigProgram"),
        (371, 44, "LigProgram"),
        (370, 4, "LigProgram"),
        (380, 0, "LigProgram"),
        (383, 1, "LigProgram"),
    ];
    for (place, value, want) in table {
        let mut bytes = small_font(rt.alloc())?;
        assert!(rt; place < bytes.len());
        bytes[place] = value;
        assert_eq!(rt;
            fault_of(rt.alloc(), &bytes),
            want,
            "byte {place} is {value}"
        );
    }
    let mut bytes = small_font(rt.alloc())?;
    assert_eq!(rt; bytes.len(), 404);
    assert_eq!(rt; fault_of(rt.alloc(), &bytes[..23]), "Short");
    bytes.push(0)?;
    assert_eq!(rt; fault_of(rt.alloc(), &bytes), "");
    bytes.truncate(403);
    assert_eq!(rt; fault_of(rt.alloc(), &bytes), "Short");
    Ok(())
}

#[test]
fn codes_and_sizes_out_of_range_are_refused(rt: HostRuntime) -> Result<(), test::Fail> {
    let table: [([(usize, u8); 3], &str); 3] = [
        ([(4, 0), (5, 124), (5, 124)], "Range"),
        ([(6, 1), (7, 0), (7, 0)], "Range"),
        ([(29, 15), (30, 255), (31, 255)], "Size"),
    ];
    for (changes, want) in table {
        let mut bytes = small_font(rt.alloc())?;
        for (place, value) in changes {
            assert!(rt; place < bytes.len());
            bytes[place] = value;
        }
        assert_eq!(rt; fault_of(rt.alloc(), &bytes), want);
    }
    Ok(())
}
