use crate::fault::DocWhy;
use crate::tests::{Seen, expect_faults, expect_outside};
use ntx_item::Param;

/// Each parameter at its least value.
static LEAST: [(&[u8], &[Seen]); 19] = [
    (
        b"set pretolerance -100000000",
        &[Seen::Set(Param::Pretolerance, -100000000)],
    ),
    (
        b"set tolerance -100000000",
        &[Seen::Set(Param::Tolerance, -100000000)],
    ),
    (
        b"set linepenalty -100000000",
        &[Seen::Set(Param::Linepenalty, -100000000)],
    ),
    (
        b"set hyphenpenalty -100000000",
        &[Seen::Set(Param::Hyphenpenalty, -100000000)],
    ),
    (
        b"set exhyphenpenalty -100000000",
        &[Seen::Set(Param::Exhyphenpenalty, -100000000)],
    ),
    (
        b"set adjdemerits -100000000",
        &[Seen::Set(Param::Adjdemerits, -100000000)],
    ),
    (
        b"set doublehyphendemerits -100000000",
        &[Seen::Set(Param::Doublehyphendemerits, -100000000)],
    ),
    (
        b"set finalhyphendemerits -100000000",
        &[Seen::Set(Param::Finalhyphendemerits, -100000000)],
    ),
    (
        b"set interlinepenalty -100000000",
        &[Seen::Set(Param::Interlinepenalty, -100000000)],
    ),
    (
        b"set clubpenalty -100000000",
        &[Seen::Set(Param::Clubpenalty, -100000000)],
    ),
    (
        b"set widowpenalty -100000000",
        &[Seen::Set(Param::Widowpenalty, -100000000)],
    ),
    (
        b"set brokenpenalty -100000000",
        &[Seen::Set(Param::Brokenpenalty, -100000000)],
    ),
    (
        b"set lefthyphenmin 1",
        &[Seen::Set(Param::Lefthyphenmin, 1)],
    ),
    (
        b"set righthyphenmin 1",
        &[Seen::Set(Param::Righthyphenmin, 1)],
    ),
    (b"set hyphenchar -1", &[Seen::Set(Param::Hyphenchar, -1)]),
    (
        b"set hsize -1073741823",
        &[Seen::Set(Param::Hsize, -1073741823)],
    ),
    (
        b"set emergencystretch -1073741823",
        &[Seen::Set(Param::Emergencystretch, -1073741823)],
    ),
    (
        b"set parindent -1073741823",
        &[Seen::Set(Param::Parindent, -1073741823)],
    ),
    (
        b"set lineskiplimit -1073741823",
        &[Seen::Set(Param::Lineskiplimit, -1073741823)],
    ),
];

/// The rows of that table, for the tests.
fn least() -> &'static [(&'static [u8], &'static [Seen])] {
    &LEAST
}

/// Each parameter at its greatest value.
static GREATEST: [(&[u8], &[Seen]); 19] = [
    (
        b"set pretolerance 100000000",
        &[Seen::Set(Param::Pretolerance, 100000000)],
    ),
    (
        b"set tolerance 100000000",
        &[Seen::Set(Param::Tolerance, 100000000)],
    ),
    (
        b"set linepenalty 100000000",
        &[Seen::Set(Param::Linepenalty, 100000000)],
    ),
    (
        b"set hyphenpenalty 100000000",
        &[Seen::Set(Param::Hyphenpenalty, 100000000)],
    ),
    (
        b"set exhyphenpenalty 100000000",
        &[Seen::Set(Param::Exhyphenpenalty, 100000000)],
    ),
    (
        b"set adjdemerits 100000000",
        &[Seen::Set(Param::Adjdemerits, 100000000)],
    ),
    (
        b"set doublehyphendemerits 100000000",
        &[Seen::Set(Param::Doublehyphendemerits, 100000000)],
    ),
    (
        b"set finalhyphendemerits 100000000",
        &[Seen::Set(Param::Finalhyphendemerits, 100000000)],
    ),
    (
        b"set interlinepenalty 100000000",
        &[Seen::Set(Param::Interlinepenalty, 100000000)],
    ),
    (
        b"set clubpenalty 100000000",
        &[Seen::Set(Param::Clubpenalty, 100000000)],
    ),
    (
        b"set widowpenalty 100000000",
        &[Seen::Set(Param::Widowpenalty, 100000000)],
    ),
    (
        b"set brokenpenalty 100000000",
        &[Seen::Set(Param::Brokenpenalty, 100000000)],
    ),
    (
        b"set lefthyphenmin 63",
        &[Seen::Set(Param::Lefthyphenmin, 63)],
    ),
    (
        b"set righthyphenmin 63",
        &[Seen::Set(Param::Righthyphenmin, 63)],
    ),
    (b"set hyphenchar 255", &[Seen::Set(Param::Hyphenchar, 255)]),
    (
        b"set hsize 1073741823",
        &[Seen::Set(Param::Hsize, 1073741823)],
    ),
    (
        b"set emergencystretch 1073741823",
        &[Seen::Set(Param::Emergencystretch, 1073741823)],
    ),
    (
        b"set parindent 1073741823",
        &[Seen::Set(Param::Parindent, 1073741823)],
    ),
    (
        b"set lineskiplimit 1073741823",
        &[Seen::Set(Param::Lineskiplimit, 1073741823)],
    ),
];

/// The rows of that table, for the tests.
fn greatest() -> &'static [(&'static [u8], &'static [Seen])] {
    &GREATEST
}

/// Each parameter one below its least value.
static BELOW: [(&[u8], u64, DocWhy); 19] = [
    (b"set pretolerance -100000001", 1, DocWhy::Range),
    (b"set tolerance -100000001", 1, DocWhy::Range),
    (b"set linepenalty -100000001", 1, DocWhy::Range),
    (b"set hyphenpenalty -100000001", 1, DocWhy::Range),
    (b"set exhyphenpenalty -100000001", 1, DocWhy::Range),
    (b"set adjdemerits -100000001", 1, DocWhy::Range),
    (b"set doublehyphendemerits -100000001", 1, DocWhy::Range),
    (b"set finalhyphendemerits -100000001", 1, DocWhy::Range),
    (b"set interlinepenalty -100000001", 1, DocWhy::Range),
    (b"set clubpenalty -100000001", 1, DocWhy::Range),
    (b"set widowpenalty -100000001", 1, DocWhy::Range),
    (b"set brokenpenalty -100000001", 1, DocWhy::Range),
    (b"set lefthyphenmin 0", 1, DocWhy::Range),
    (b"set righthyphenmin 0", 1, DocWhy::Range),
    (b"set hyphenchar -2", 1, DocWhy::Range),
    (b"set hsize -1073741824", 1, DocWhy::Range),
    (b"set emergencystretch -1073741824", 1, DocWhy::Range),
    (b"set parindent -1073741824", 1, DocWhy::Range),
    (b"set lineskiplimit -1073741824", 1, DocWhy::Range),
];

/// The rows of that table, for the tests.
fn below() -> &'static [(&'static [u8], u64, DocWhy)] {
    &BELOW
}

/// Each parameter one above its greatest value.
static ABOVE: [(&[u8], u64, DocWhy); 19] = [
    (b"set pretolerance 100000001", 1, DocWhy::Range),
    (b"set tolerance 100000001", 1, DocWhy::Range),
    (b"set linepenalty 100000001", 1, DocWhy::Range),
    (b"set hyphenpenalty 100000001", 1, DocWhy::Range),
    (b"set exhyphenpenalty 100000001", 1, DocWhy::Range),
    (b"set adjdemerits 100000001", 1, DocWhy::Range),
    (b"set doublehyphendemerits 100000001", 1, DocWhy::Range),
    (b"set finalhyphendemerits 100000001", 1, DocWhy::Range),
    (b"set interlinepenalty 100000001", 1, DocWhy::Range),
    (b"set clubpenalty 100000001", 1, DocWhy::Range),
    (b"set widowpenalty 100000001", 1, DocWhy::Range),
    (b"set brokenpenalty 100000001", 1, DocWhy::Range),
    (b"set lefthyphenmin 64", 1, DocWhy::Range),
    (b"set righthyphenmin 64", 1, DocWhy::Range),
    (b"set hyphenchar 256", 1, DocWhy::Range),
    (b"set hsize 1073741824", 1, DocWhy::Range),
    (b"set emergencystretch 1073741824", 1, DocWhy::Range),
    (b"set parindent 1073741824", 1, DocWhy::Range),
    (b"set lineskiplimit 1073741824", 1, DocWhy::Range),
];

/// The rows of that table, for the tests.
fn above() -> &'static [(&'static [u8], u64, DocWhy)] {
    &ABOVE
}

#[test]
fn sets_each_parameter_to_its_least_value(rt: HostRuntime) {
    expect_outside(&rt, least());
}

#[test]
fn sets_each_parameter_to_its_greatest_value(rt: HostRuntime) {
    expect_outside(&rt, greatest());
}

#[test]
fn refuses_values_below_the_range_of_a_parameter(rt: HostRuntime) {
    expect_faults(&rt, below(), 2);
}

#[test]
fn refuses_values_above_the_range_of_a_parameter(rt: HostRuntime) {
    expect_faults(&rt, above(), 2);
}
