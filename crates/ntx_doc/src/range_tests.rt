use crate::fault::DocWhy;
use crate::tests::expect_faults;

/// Documents with a number one past its range, outside of boxes; there are as many fonts as there can be.
static OUTSIDE: [(&[u8], u64, DocWhy); 22] = [
    (b"setglue parskip 1073741824 0 0 0 0", 1, DocWhy::Range),
    (b"setglue parskip -1073741824 0 0 0 0", 1, DocWhy::Range),
    (b"setglue parskip 0 1073741824 0 0 0", 1, DocWhy::Range),
    (b"setglue parskip 0 -1073741824 0 0 0", 1, DocWhy::Range),
    (b"setglue parskip 0 0 0 1073741824 0", 1, DocWhy::Range),
    (b"setglue parskip 0 0 0 -1073741824 0", 1, DocWhy::Range),
    (b"hbox to 1073741824", 1, DocWhy::Range),
    (b"hbox to -1073741824", 1, DocWhy::Range),
    (b"hbox spread 1073741824", 1, DocWhy::Range),
    (b"hbox spread -1073741824", 1, DocWhy::Range),
    (b"setglue parskip 0 0 4 0 0", 1, DocWhy::Range),
    (b"setglue parskip 0 0 -1 0 0", 1, DocWhy::Range),
    (b"setglue parskip 0 0 0 0 4", 1, DocWhy::Range),
    (b"setglue parskip 0 0 0 0 -1", 1, DocWhy::Range),
    (b"attr 65536 0", 1, DocWhy::Range),
    (b"attr -1 0", 1, DocWhy::Range),
    (b"noattr 65536", 1, DocWhy::Range),
    (b"noattr -1", 1, DocWhy::Range),
    (b"attr 0 2147483648", 1, DocWhy::Range),
    (b"attr 0 -2147483647", 1, DocWhy::Range),
    (b"font 64", 1, DocWhy::Range),
    (b"font -1", 1, DocWhy::Range),
];

/// The rows of that table, for the tests.
fn outside() -> &'static [(&'static [u8], u64, DocWhy)] {
    &OUTSIDE
}

/// The same in a box.
static IN_A_BOX: [(&[u8], u64, DocWhy); 24] = [
    (b"hbox\nglue 1073741824 0 0 0 0", 2, DocWhy::Range),
    (b"hbox\nglue -1073741824 0 0 0 0", 2, DocWhy::Range),
    (b"hbox\nglue 0 1073741824 0 0 0", 2, DocWhy::Range),
    (b"hbox\nglue 0 -1073741824 0 0 0", 2, DocWhy::Range),
    (b"hbox\nglue 0 0 0 1073741824 0", 2, DocWhy::Range),
    (b"hbox\nglue 0 0 0 -1073741824 0", 2, DocWhy::Range),
    (b"hbox\nkern 1073741824", 2, DocWhy::Range),
    (b"hbox\nkern -1073741824", 2, DocWhy::Range),
    (b"hbox\nrule 1073741824 0 0", 2, DocWhy::Range),
    (b"hbox\nrule -1073741824 0 0", 2, DocWhy::Range),
    (b"hbox\nrule 0 1073741824 0", 2, DocWhy::Range),
    (b"hbox\nrule 0 -1073741824 0", 2, DocWhy::Range),
    (b"hbox\nrule 0 0 1073741824", 2, DocWhy::Range),
    (b"hbox\nrule 0 0 -1073741824", 2, DocWhy::Range),
    (b"hbox\nglue 0 0 4 0 0", 2, DocWhy::Range),
    (b"hbox\nglue 0 0 -1 0 0", 2, DocWhy::Range),
    (b"hbox\nglue 0 0 0 0 4", 2, DocWhy::Range),
    (b"hbox\nglue 0 0 0 0 -1", 2, DocWhy::Range),
    (b"hbox\npenalty 2147483648", 2, DocWhy::Range),
    (b"hbox\npenalty -2147483648", 2, DocWhy::Range),
    (b"hbox\nchar 256", 2, DocWhy::Range),
    (b"hbox\nchar -1", 2, DocWhy::Range),
    (b"hbox\nkern 9999999999", 2, DocWhy::Range),
    (b"hbox\nkern -9999999999", 2, DocWhy::Range),
];

/// The rows of that table, for the tests.
fn in_a_box() -> &'static [(&'static [u8], u64, DocWhy)] {
    &IN_A_BOX
}

#[test]
fn refuses_numbers_one_past_a_range(rt: HostRuntime) {
    expect_faults(&rt, outside(), 64);
}

#[test]
fn refuses_numbers_one_past_a_range_in_a_box(rt: HostRuntime) {
    expect_faults(&rt, in_a_box(), 64);
}
