use super::*;

/// Whether each of these command lines is refused.
fn refuses_each<R: Abort + AllocGlobal>(rt: &R, lines: &[&str]) -> Result<(), TestFail> {
    for line in lines {
        let words = words_of(rt, line)?;
        assert!(rt; read(rt, words.as_slice()).is_none(), "{line:?}");
    }
    Ok(())
}

#[test]
fn needs_four_paths(rt: HostRuntime) -> Result<(), TestFail> {
    assert!(rt; read(&rt, &[]).is_none());
    refuses_each(
        &rt,
        &[
            "",
            "a b",
            "a b c",
            "--steps 5 b c d",
            "a b c --steps 5",
            "-- a b c",
            "a b c --",
            "-- --steps 5 c",
        ],
    )
}

#[test]
fn needs_a_number_of_steps_once(rt: HostRuntime) -> Result<(), TestFail> {
    refuses_each(
        &rt,
        &[
            "--steps=0 a b c d",
            "--steps 0 a b c d",
            "--steps 0000000000 a b c d",
            "--steps 4294967297 a b c d",
            "--steps=4294967297 a b c d",
            "--steps 9999999999 a b c d",
            "--steps 00000000001 a b c d",
            "--steps 18446744073709551617 a b c d",
            // No digits, or more than digits.
            "--steps= a b c d",
            "--steps  a b c d",
            "--steps x a b c d",
            "--steps 5x a b c d",
            "--steps +5 a b c d",
            "--steps -5 a b c d",
            "--steps=+5 a b c d",
            "--steps=-5 a b c d",
            "--steps 0x5 a b c d",
            "--steps 5. a b c d",
            "--steps=5=5 a b c d",
            "--steps ٣ a b c d",
            // No value.
            "a b c d --steps",
            "--steps - a b c d",
            "--steps -- a b c d",
            "a b c d --steps --",
            "--steps --steps a b c d",
            "--steps --steps 5 a b c d",
            "--steps --steps=5 a b c d",
            // Two values.
            "--steps 5 --steps 5 a b c d",
            "--steps 5 a b c d --steps=5",
            "--steps=5 --steps=5 a b c d",
            "a --steps=5 b c d --steps 6",
        ],
    )
}

#[test]
fn knows_no_other_option(rt: HostRuntime) -> Result<(), TestFail> {
    refuses_each(
        &rt,
        &[
            "-x a b c d",
            "a b c -d",
            "a b c d -x",
            "-5 a b c d",
            "--x a b c d",
            "--5 a b c d",
            "--- a b c d",
            "--=5 a b c d",
            "-= a b c d",
            "-é a b c d",
            "--é a b c d",
            "--demo 3",
            "--demo=3",
            "--demo 3 a b c d",
            "a b c d --demo=3",
            // What is near to the option.
            "--step 5 a b c d",
            "--step=5 a b c d",
            "--s 5 a b c d",
            "-s 5 a b c d",
            "-steps 5 a b c d",
            "--stepss 5 a b c d",
            "--Steps 5 a b c d",
            "--steps5 a b c d",
            // What ends many other programs.
            "--help",
            "-h",
            "--version",
            "-V",
            "--help a b c d",
            "a b c d -h",
            "help",
        ],
    )
}
