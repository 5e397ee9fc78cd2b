use super::*;

/// A command line, and what it asks for: the number of steps, the paths, which one space separates from one another, and the sizes.
type Case = (&'static str, u64, &'static str, &'static [Option<i64>]);

/// The paths, with one space between them.
fn joined<R: AllocGlobal>(rt: &R, paths: &[String]) -> Result<String, TestFail> {
    let mut text = String::new(rt.alloc());
    let mut is_first = true;
    for path in paths {
        if !is_first {
            text.push(' ')?;
        }
        text.push_str(path.as_str())?;
        is_first = false;
    }
    Ok(text)
}

/// Whether each of these command lines is accepted and asks for what stands beside it.
fn accepts_each<R: Abort + AllocGlobal>(rt: &R, cases: &[Case]) -> Result<(), TestFail> {
    for (line, steps, paths, sizes) in cases {
        let words = words_of(rt, line)?;
        let Some(asked) = read(rt, words.as_slice()) else {
            panic!(rt; "{line:?} is refused");
        };
        let text = joined(rt, asked.paths.as_slice())?;
        assert_eq!(rt; asked.steps, *steps, "{line:?}");
        assert_eq!(rt; text.as_str(), *paths, "{line:?}");
        assert_eq!(rt; asked.sizes.as_slice(), *sizes, "{line:?}");
        assert_eq!(rt; asked.demo, None, "{line:?}");
    }
    Ok(())
}

#[test]
fn reads_steps_anywhere(rt: HostRuntime) -> Result<(), TestFail> {
    accepts_each(
        &rt,
        &[
            ("a b c d", 1_000_000, "a b c d", &[]),
            ("--steps 5 a b c d", 5, "a b c d", &[]),
            ("a --steps 5 b c d", 5, "a b c d", &[]),
            ("a b --steps 5 c d", 5, "a b c d", &[]),
            ("a b c --steps 5 d", 5, "a b c d", &[]),
            ("a b c d --steps 5", 5, "a b c d", &[]),
            ("--steps=5 a b c d", 5, "a b c d", &[]),
            ("a b c d --steps=5", 5, "a b c d", &[]),
            ("a b c d f --steps 7 g", 7, "a b c d f g", &[None, None]),
            ("--steps 1 a b c d", 1, "a b c d", &[]),
            ("--steps 4294967296 a b c d", 4_294_967_296, "a b c d", &[]),
            ("--steps=4294967296 a b c d", 4_294_967_296, "a b c d", &[]),
            ("--steps 0000000001 a b c d", 1, "a b c d", &[]),
            ("--steps=00012 a b c d", 12, "a b c d", &[]),
        ],
    )
}

#[test]
fn reads_paths(rt: HostRuntime) -> Result<(), TestFail> {
    accepts_each(
        &rt,
        &[
            ("- - - -", 1_000_000, "- - - -", &[]),
            ("a - --steps 5 c d", 5, "a - c d", &[]),
            ("-- a b c d", 1_000_000, "a b c d", &[]),
            ("a b -- c d", 1_000_000, "a b c d", &[]),
            ("a b c d --", 1_000_000, "a b c d", &[]),
            ("--steps 5 -- a b c d", 5, "a b c d", &[]),
            ("-- --steps 5 c d", 1_000_000, "--steps 5 c d", &[]),
            ("-- -a --b -- -", 1_000_000, "-a --b -- -", &[]),
            ("a --steps=5 -- --steps=6 c d", 5, "a --steps=6 c d", &[]),
            (
                "a= b=--steps c--steps d-",
                1_000_000,
                "a= b=--steps c--steps d-",
                &[],
            ),
            ("help version a b", 1_000_000, "help version a b", &[]),
            // Four words without a byte.
            ("   ", 1_000_000, "   ", &[]),
            ("é ü@5 c d ß@5", 1_000_000, "é ü@5 c d ß", &[Some(5)]),
        ],
    )
}

#[test]
fn reads_fonts(rt: HostRuntime) -> Result<(), TestFail> {
    accepts_each(
        &rt,
        &[
            ("a@5 b@5 c@5 d@5", 1_000_000, "a@5 b@5 c@5 d@5", &[]),
            ("a b c d f", 1_000_000, "a b c d f", &[None]),
            ("a b c d -", 1_000_000, "a b c d -", &[None]),
            (
                "a b c d f.tfm@655360",
                1_000_000,
                "a b c d f.tfm",
                &[Some(655_360)],
            ),
            ("a b c d f@1", 1_000_000, "a b c d f", &[Some(1)]),
            (
                "a b c d f@67108863",
                1_000_000,
                "a b c d f",
                &[Some(67_108_863)],
            ),
            (
                "a b c d f@67108864",
                1_000_000,
                "a b c d f@67108864",
                &[None],
            ),
            (
                "a b c d f@999999999",
                1_000_000,
                "a b c d f@999999999",
                &[None],
            ),
            ("a b c d f@000000005", 1_000_000, "a b c d f", &[Some(5)]),
            (
                "a b c d f@0000000005",
                1_000_000,
                "a b c d f@0000000005",
                &[None],
            ),
            (
                "a b c d f@0 f@ f@x f@5x f@-5 f@+5",
                1_000_000,
                "a b c d f@0 f@ f@x f@5x f@-5 f@+5",
                &[None; 6],
            ),
            (
                "a b c d f@5@6 f@5@x f@5@ @5 @",
                1_000_000,
                "a b c d f@5 f@5@x f@5@  @",
                &[Some(6), None, None, Some(5), None],
            ),
            (
                "a b c d f@2 --steps 9 g h@3",
                9,
                "a b c d f g h",
                &[Some(2), None, Some(3)],
            ),
            ("a b c d -- --f@3", 1_000_000, "a b c d --f", &[Some(3)]),
        ],
    )
}

#[test]
fn takes_64_fonts(rt: HostRuntime) -> Result<(), TestFail> {
    let mut words = words_of(&rt, "a b c d")?;
    for _ in 0..64 {
        words.push(String::from_str(rt.alloc(), "f@5")?)?;
    }
    let Some(asked) = read(&rt, words.as_slice()) else {
        panic!(rt; "refused");
    };
    assert_eq!(rt; asked.paths.len(), 68);
    assert_eq!(rt; asked.sizes.len(), 64);
    assert_eq!(rt; asked.sizes[63], Some(5));
    words.push(String::from_str(rt.alloc(), "f")?)?;
    assert!(rt; read(&rt, words.as_slice()).is_none());
    Ok(())
}
