use crate::tests::{Seen, expect_inside, expect_outside};
use ntx_item::GlueParam;

/// Documents of one command outside of boxes, with the command; there are two fonts.
static OUTSIDE: [(&[u8], &[Seen]); 20] = [
    (
        b"setglue baselineskip 1 0 0 0 3",
        &[Seen::SetGlue(GlueParam::Baselineskip, 1, 0, 0, 0, 3)],
    ),
    (
        b"setglue lineskip 2 -1 1 7 2",
        &[Seen::SetGlue(GlueParam::Lineskip, 2, -1, 1, 7, 2)],
    ),
    (
        b"setglue topskip 3 -2 2 14 1",
        &[Seen::SetGlue(GlueParam::Topskip, 3, -2, 2, 14, 1)],
    ),
    (
        b"setglue parskip 4 -3 3 21 0",
        &[Seen::SetGlue(GlueParam::Parskip, 4, -3, 3, 21, 0)],
    ),
    (
        b"setglue leftskip 5 -4 0 28 3",
        &[Seen::SetGlue(GlueParam::Leftskip, 5, -4, 0, 28, 3)],
    ),
    (
        b"setglue rightskip 6 -5 1 35 2",
        &[Seen::SetGlue(GlueParam::Rightskip, 6, -5, 1, 35, 2)],
    ),
    (
        b"setglue parfillskip 7 -6 2 42 1",
        &[Seen::SetGlue(GlueParam::Parfillskip, 7, -6, 2, 42, 1)],
    ),
    (
        b"setglue parskip 1073741823 1073741823 3 1073741823 3",
        &[Seen::SetGlue(GlueParam::Parskip, 1073741823, 1073741823, 3, 1073741823, 3)],
    ),
    (
        b"setglue parskip -1073741823 -1073741823 0 -1073741823 0",
        &[Seen::SetGlue(
            GlueParam::Parskip,
            -1073741823,
            -1073741823,
            0,
            -1073741823,
            0,
        )],
    ),
    (b"attr 0 -2147483646", &[Seen::Attr(0, -2147483646)]),
    (b"attr 65535 2147483647", &[Seen::Attr(65535, 2147483647)]),
    (b"attr -0 -0", &[Seen::Attr(0, 0)]),
    (b"noattr 0", &[Seen::NoAttr(0)]),
    (b"noattr 65535", &[Seen::NoAttr(65535)]),
    (b"hbox\nend", &[Seen::Spread(0, 0)]),
    (b"hbox to 1073741823\nend", &[Seen::To(1073741823, 0)]),
    (b"hbox to -1073741823\nend", &[Seen::To(-1073741823, 0)]),
    (
        b"hbox spread 1073741823\nend",
        &[Seen::Spread(1073741823, 0)],
    ),
    (
        b"hbox spread -1073741823\nend",
        &[Seen::Spread(-1073741823, 0)],
    ),
    (b"\t hbox\tto  5\t\r\n%\n end \n\n", &[Seen::To(5, 0)]),
];

/// The rows of that table, for the tests.
fn outside() -> &'static [(&'static [u8], &'static [Seen])] {
    &OUTSIDE
}

/// Documents of one box, with the command in it; there are two fonts.
static INSIDE: [(&[u8], &[Seen]); 24] = [
    (
        b"hbox\nglue 1073741823 1073741823 3 1073741823 3\nend",
        &[Seen::Glue(1073741823, 1073741823, 3, 1073741823, 3)],
    ),
    (
        b"hbox\nglue -1073741823 -1073741823 0 -1073741823 0\nend",
        &[Seen::Glue(-1073741823, -1073741823, 0, -1073741823, 0)],
    ),
    (b"hbox\nglue 1 2 3 4 0\nend", &[Seen::Glue(1, 2, 3, 4, 0)]),
    (b"hbox\nglue 1 2 -0 4 2\nend", &[Seen::Glue(1, 2, 0, 4, 2)]),
    (b"hbox\nkern 1073741823\nend", &[Seen::Kern(1073741823)]),
    (b"hbox\nkern -1073741823\nend", &[Seen::Kern(-1073741823)]),
    (b"hbox\nkern -0000000000\nend", &[Seen::Kern(0)]),
    (
        b"hbox\npenalty 2147483647\nend",
        &[Seen::Penalty(2147483647)],
    ),
    (
        b"hbox\npenalty -2147483647\nend",
        &[Seen::Penalty(-2147483647)],
    ),
    (
        b"hbox\nrule 1073741823 1073741823 1073741823\nend",
        &[Seen::Rule(1073741823, 1073741823, 1073741823)],
    ),
    (
        b"hbox\nrule -1073741823 -1073741823 -1073741823\nend",
        &[Seen::Rule(-1073741823, -1073741823, -1073741823)],
    ),
    (b"hbox\nrule 0000000001 2 3\nend", &[Seen::Rule(1, 2, 3)]),
    (b"hbox\nchar 0\nend", &[Seen::Glyph(0, 0)]),
    (b"hbox\nchar 255\nend", &[Seen::Glyph(0, 255)]),
    (b"hbox\nspace\nend", &[Seen::Space(0)]),
    (b"hbox\ntext a\nend", &[Seen::Glyph(0, 97)]),
    (b"hbox\ntext %\nend", &[Seen::Glyph(0, 37)]),
    (b"hbox\nattr 65535 1\nend", &[Seen::Attr(65535, 1)]),
    (b"hbox\nnoattr 3\nend", &[Seen::NoAttr(3)]),
    (b"hbox\nhbox to 7\nkern 1\nend\nend", &[Seen::To(7, 1)]),
    (
        b"hbox\nhbox spread 7\nkern 1\nkern 2\nend\nend",
        &[Seen::Spread(7, 2)],
    ),
    (b"hbox\nfont 1\nspace\nend", &[Seen::Space(1)]),
    (b"hbox\nfont 1\nchar 97\nend", &[Seen::Glyph(1, 97)]),
    (b"hbox\nfont 1\nfont 0\ntext ~\nend", &[Seen::Glyph(0, 126)]),
];

/// The rows of that table, for the tests.
fn inside() -> &'static [(&'static [u8], &'static [Seen])] {
    &INSIDE
}

#[test]
fn reads_each_form_outside_of_boxes(rt: HostRuntime) {
    expect_outside(&rt, outside());
}

#[test]
fn reads_each_form_in_a_box(rt: HostRuntime) {
    expect_inside(&rt, inside());
}
