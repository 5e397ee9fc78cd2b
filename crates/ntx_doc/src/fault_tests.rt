use crate::fault::DocWhy;
use crate::tests::expect_faults;

/// Documents with a byte that no line may hold, a field that is no number, an open box or a font that is not there; there are two fonts.
static BYTES_AND_NUMBERS: [(&[u8], u64, DocWhy); 28] = [
    // No numbers.
    (b"set hsize x", 1, DocWhy::Number),
    (b"setglue parskip 0 0 0 0 -", 1, DocWhy::Number),
    (b"font x", 1, DocWhy::Number),
    (b"attr 0x1 1", 1, DocWhy::Number),
    (b"attr 1 +1", 1, DocWhy::Number),
    (b"noattr 1.", 1, DocWhy::Number),
    (b"hbox to x", 1, DocWhy::Number),
    (b"hbox spread --1", 1, DocWhy::Number),
    (b"hbox\nkern 00000000001", 2, DocWhy::Number),
    (b"hbox\nkern -", 2, DocWhy::Number),
    (b"hbox\npenalty 1e3", 2, DocWhy::Number),
    (b"hbox\nrule 1 2 0x3", 2, DocWhy::Number),
    (b"hbox\nrule - 2 3", 2, DocWhy::Number),
    (b"hbox\nglue 0 0 x 0 0", 2, DocWhy::Number),
    (b"hbox\nchar a", 2, DocWhy::Number),
    // Bytes that a line may not hold, also in a skipped line, and carriage returns that are not directly before a line feed.
    (b"\n\x1f", 2, DocWhy::Byte),
    (b"\n%\x7f", 2, DocWhy::Byte),
    (b"hbox\r\nend\r", 2, DocWhy::Byte),
    (b"hbox\r\r\nend", 1, DocWhy::Byte),
    (b"\nhb\rox\n", 2, DocWhy::Byte),
    (b"hbox\ntext \x80", 2, DocWhy::Byte),
    // An open box.
    (b"hbox", 1, DocWhy::Open),
    (b"hbox\n", 1, DocWhy::Open),
    (b"hbox\nrule 1 1 1\n\n% end", 4, DocWhy::Open),
    (b"hbox\nhbox\nend\n", 3, DocWhy::Open),
    // Fonts that are not there.
    (b"font 2", 1, DocWhy::Font),
    (b"font 63", 1, DocWhy::Font),
    (b"hbox\nfont 2", 2, DocWhy::Font),
];

/// The rows of that table, for the tests.
fn bytes_and_numbers() -> &'static [(&'static [u8], u64, DocWhy)] {
    &BYTES_AND_NUMBERS
}

/// Documents with two faults in one line, or in two lines; there are two fonts.
static TWO_FAULTS: [(&[u8], u64, DocWhy); 33] = [
    // Byte comes before Command, Fields, Name, Number, Range.
    (b"hbox\nfoo\x01", 2, DocWhy::Byte),
    (b"set hsize\x01", 1, DocWhy::Byte),
    (b"set foo 5\x01", 1, DocWhy::Byte),
    (b"set hsize x\x01", 1, DocWhy::Byte),
    (b"attr 65536 1\x01", 1, DocWhy::Byte),
    (b"hbox\nkern 1073741824 \x01", 2, DocWhy::Byte),
    // Command comes before Fields, Name, Number, Range.
    (b"kern", 1, DocWhy::Command),
    (b"hbox\nend\nhbox 1", 3, DocWhy::Command),
    (b"hbox\nset foo 5", 2, DocWhy::Command),
    (b"kern x", 1, DocWhy::Command),
    (b"penalty 2147483648", 1, DocWhy::Command),
    (b"hbox\nend\nhbox to 1073741824", 3, DocWhy::Command),
    // Fields comes before Name, Number, Range, Font.
    (b"set foo", 1, DocWhy::Fields),
    (b"setglue hsize 0", 1, DocWhy::Fields),
    (b"hbox\nrule x", 2, DocWhy::Fields),
    (b"hbox foo x", 1, DocWhy::Fields),
    (b"hbox\nchar 256 1", 2, DocWhy::Fields),
    (b"font 2 3", 1, DocWhy::Fields),
    // Name comes before Number, Range.
    (b"set foo x", 1, DocWhy::Name),
    (b"set foo 9999999999", 1, DocWhy::Name),
    (b"setglue foo x 0 0 0 0", 1, DocWhy::Name),
    (b"setglue foo 9999999999 0 0 0 0", 1, DocWhy::Name),
    // The fields from the left, Number and Range of each.
    (b"hbox\nrule x 1073741824 0", 2, DocWhy::Number),
    (b"hbox\nrule 1073741824 x 0", 2, DocWhy::Range),
    (b"hbox\nglue 0 0 4 x 0", 2, DocWhy::Range),
    (b"hbox\nglue 0 0 x 0 4", 2, DocWhy::Number),
    (b"attr 65536 x", 1, DocWhy::Range),
    (b"attr x 2147483648", 1, DocWhy::Number),
    (b"setglue parskip 0 1073741824 x 0 0", 1, DocWhy::Range),
    // Range comes before Font.
    (b"font 64", 1, DocWhy::Range),
    (b"font -1", 1, DocWhy::Range),
    // Two lines with a fault.
    (b"hbox\nrule 1\nfoo\x01", 2, DocWhy::Fields),
    (b"hbox\nfoo\nrule 1", 2, DocWhy::Command),
];

/// The rows of that table, for the tests.
fn two_faults() -> &'static [(&'static [u8], u64, DocWhy)] {
    &TWO_FAULTS
}

/// Documents with characters and text; there are no fonts.
static NO_FONTS: [(&[u8], u64, DocWhy); 13] = [
    (b"font 0", 1, DocWhy::Font),
    (b"hbox\nchar 97", 2, DocWhy::Font),
    (b"hbox\nspace", 2, DocWhy::Font),
    (b"hbox\ntext a", 2, DocWhy::Font),
    (b"hbox\nchar 256", 2, DocWhy::Range),
    (b"hbox\nchar x", 2, DocWhy::Number),
    (b"hbox\nchar", 2, DocWhy::Fields),
    (b"hbox\nspace 1", 2, DocWhy::Fields),
    (b"hbox\ntext", 2, DocWhy::Fields),
    (b"font 64", 1, DocWhy::Range),
    (b"font x", 1, DocWhy::Number),
    (b"char 97", 1, DocWhy::Command),
    (b"hbox\ntext \x01", 2, DocWhy::Byte),
];

/// The rows of that table, for the tests.
fn no_fonts() -> &'static [(&'static [u8], u64, DocWhy)] {
    &NO_FONTS
}

#[test]
fn refuses_bytes_numbers_and_open_boxes(rt: HostRuntime) {
    expect_faults(&rt, bytes_and_numbers(), 2);
}

#[test]
fn tells_the_first_of_two_faults(rt: HostRuntime) {
    expect_faults(&rt, two_faults(), 2);
}

#[test]
fn refuses_text_without_fonts(rt: HostRuntime) {
    expect_faults(&rt, no_fonts(), 0);
}
