use crate::tests::{Seen, expect_inside, expect_outside};
use ntx_item::Param;

/// Documents of one box, with the commands in it; there are two fonts.
static TEXT: [(&[u8], &[Seen]); 17] = [
    (
        b"hbox\ntext a b\nend",
        &[Seen::Glyph(0, 97), Seen::Space(0), Seen::Glyph(0, 98)],
    ),
    (
        b"hbox\ntext ab\tc  d\nend",
        &[
            Seen::Glyph(0, 97),
            Seen::Glyph(0, 98),
            Seen::Space(0),
            Seen::Glyph(0, 99),
            Seen::Space(0),
            Seen::Glyph(0, 100),
        ],
    ),
    (
        b"hbox\ntext a\ntext b\nend",
        &[Seen::Glyph(0, 97), Seen::Space(0), Seen::Glyph(0, 98)],
    ),
    (
        b"hbox\ntext a\n\n% x\n \t\ntext b\nend",
        &[Seen::Glyph(0, 97), Seen::Space(0), Seen::Glyph(0, 98)],
    ),
    (
        b"hbox\ntext a\ntext b c\ntext d\nend",
        &[
            Seen::Glyph(0, 97),
            Seen::Space(0),
            Seen::Glyph(0, 98),
            Seen::Space(0),
            Seen::Glyph(0, 99),
            Seen::Space(0),
            Seen::Glyph(0, 100),
        ],
    ),
    (
        b"hbox\ntext a\nkern 1\ntext b\nend",
        &[Seen::Glyph(0, 97), Seen::Kern(1), Seen::Glyph(0, 98)],
    ),
    (
        b"hbox\ntext a\nfont 1\ntext b\nend",
        &[Seen::Glyph(0, 97), Seen::Glyph(1, 98)],
    ),
    (
        b"hbox\ntext a\nattr 1 2\ntext b\nend",
        &[Seen::Glyph(0, 97), Seen::Attr(1, 2), Seen::Glyph(0, 98)],
    ),
    (
        b"hbox\ntext a\nnoattr 1\ntext b\nend",
        &[Seen::Glyph(0, 97), Seen::NoAttr(1), Seen::Glyph(0, 98)],
    ),
    (
        b"hbox\ntext a\nspace\ntext b\nend",
        &[Seen::Glyph(0, 97), Seen::Space(0), Seen::Glyph(0, 98)],
    ),
    (
        b"hbox\ntext a\nchar 98\ntext c\nend",
        &[Seen::Glyph(0, 97), Seen::Glyph(0, 98), Seen::Glyph(0, 99)],
    ),
    (
        b"hbox\ntext a\nhbox\ntext b\nend\ntext c\nend",
        &[Seen::Glyph(0, 97), Seen::Spread(0, 1), Seen::Glyph(0, 99)],
    ),
    (
        b"hbox\ntext a\nhbox\nend\ntext c\nend",
        &[Seen::Glyph(0, 97), Seen::Spread(0, 0), Seen::Glyph(0, 99)],
    ),
    (
        b"hbox\ntext % %%\nend",
        &[
            Seen::Glyph(0, 37),
            Seen::Space(0),
            Seen::Glyph(0, 37),
            Seen::Glyph(0, 37),
        ],
    ),
    (
        b"hbox\ntext end\nend",
        &[
            Seen::Glyph(0, 101),
            Seen::Glyph(0, 110),
            Seen::Glyph(0, 100),
        ],
    ),
    (
        b"hbox\nfont 1\nhbox\nfont 0\nend\nspace\nend",
        &[Seen::Spread(0, 0), Seen::Space(0)],
    ),
    (
        b"hbox\nchar 97\nspace\nkern 5\npenalty 6\nrule 1 2 3\nend",
        &[
            Seen::Glyph(0, 97),
            Seen::Space(0),
            Seen::Kern(5),
            Seen::Penalty(6),
            Seen::Rule(1, 2, 3),
        ],
    ),
];

/// The rows of that table, for the tests.
fn text() -> &'static [(&'static [u8], &'static [Seen])] {
    &TEXT
}

/// Documents of no command, and of several; there are two fonts.
static AROUND: [(&[u8], &[Seen]); 5] = [
    (b"", &[]),
    (b"\r\n \t\n%foo 1\n  % foo", &[]),
    (b"font 0", &[]),
    (b"font 1\n\nfont 0\n", &[]),
    (
        b"set hsize 5\nfont 1\nattr 1 2\nhbox to 9\nspace\nend\nnoattr 1\nset hsize 6\nfont 0",
        &[
            Seen::Set(Param::Hsize, 5),
            Seen::Attr(1, 2),
            Seen::To(9, 1),
            Seen::NoAttr(1),
            Seen::Set(Param::Hsize, 6),
        ],
    ),
];

/// The rows of that table, for the tests.
fn around() -> &'static [(&'static [u8], &'static [Seen])] {
    &AROUND
}

#[test]
fn reads_text_with_space_between_words_and_lines(rt: HostRuntime) {
    expect_inside(&rt, text());
}

#[test]
fn reads_what_stands_around_a_box(rt: HostRuntime) {
    expect_outside(&rt, around());
}
