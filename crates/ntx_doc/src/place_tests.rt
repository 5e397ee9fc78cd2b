use crate::fault::DocWhy;
use crate::tests::expect_faults;

/// Documents with a command that may not stand where it does; there are two fonts.
static PLACES: [(&[u8], u64, DocWhy); 26] = [
    // No form, and forms of other kinds.
    (b"foo", 1, DocWhy::Command),
    (b"\n\t\nHbox\n", 3, DocWhy::Command),
    (b"hboxes", 1, DocWhy::Command),
    (b"par", 1, DocWhy::Command),
    (b"par noindent", 1, DocWhy::Command),
    (b"pages 5", 1, DocWhy::Command),
    (b"hbox\npar", 2, DocWhy::Command),
    (b"hbox\npages 5", 2, DocWhy::Command),
    // At top.
    (b"end", 1, DocWhy::Command),
    (b"glue 0 0 0 0 0", 1, DocWhy::Command),
    (b"kern 5", 1, DocWhy::Command),
    (b"penalty 0", 1, DocWhy::Command),
    (b"rule 1 1 1", 1, DocWhy::Command),
    (b"char 97", 1, DocWhy::Command),
    (b"space", 1, DocWhy::Command),
    (b"text a", 1, DocWhy::Command),
    (b"% kerns\nfont 0\nkern 5", 3, DocWhy::Command),
    // A second box, and what stands after the box.
    (b"hbox\nend\nhbox", 3, DocWhy::Command),
    (
        b"hbox\nend\nset hsize 5\nattr 1 1\nhbox",
        5,
        DocWhy::Command,
    ),
    (b"hbox\nhbox\nend\nend\nhbox\nend", 5, DocWhy::Command),
    (b"hbox\nend\nend", 3, DocWhy::Command),
    (b"hbox\nend\ntext a", 3, DocWhy::Command),
    (b"hbox\nend\nkern 1", 3, DocWhy::Command),
    // In a box.
    (b"hbox\nset hsize 5", 2, DocWhy::Command),
    (b"hbox\nsetglue parskip 0 0 0 0 0", 2, DocWhy::Command),
    (b"hbox\nhbox\nend\nset hsize 5\nend", 4, DocWhy::Command),
];

/// The rows of that table, for the tests.
fn places() -> &'static [(&'static [u8], u64, DocWhy)] {
    &PLACES
}

/// Documents with a wrong number of fields, a wrong word or a wrong name; there are two fonts.
static FIELDS_AND_NAMES: [(&[u8], u64, DocWhy); 39] = [
    (b"set hsize", 1, DocWhy::Fields),
    (b"set hsize 5 6", 1, DocWhy::Fields),
    (b"set", 1, DocWhy::Fields),
    (b"setglue parskip 0 0 0 0", 1, DocWhy::Fields),
    (b"setglue parskip 0 0 0 0 0 0", 1, DocWhy::Fields),
    (b"setglue", 1, DocWhy::Fields),
    (b"font", 1, DocWhy::Fields),
    (b"font 0 1", 1, DocWhy::Fields),
    (b"attr 1", 1, DocWhy::Fields),
    (b"attr 1 2 3", 1, DocWhy::Fields),
    (b"noattr", 1, DocWhy::Fields),
    (b"noattr 1 2", 1, DocWhy::Fields),
    (b"hbox 5", 1, DocWhy::Fields),
    (b"hbox to", 1, DocWhy::Fields),
    (b"hbox spread", 1, DocWhy::Fields),
    (b"hbox to 5 6", 1, DocWhy::Fields),
    (b"hbox spread 5 6", 1, DocWhy::Fields),
    (b"hbox To 5", 1, DocWhy::Fields),
    (b"hbox 5 to", 1, DocWhy::Fields),
    (b"hbox %", 1, DocWhy::Fields),
    (b"hbox\nend 1", 2, DocWhy::Fields),
    (b"hbox\nglue 0 0 0 0", 2, DocWhy::Fields),
    (b"hbox\nglue 0 0 0 0 0 0", 2, DocWhy::Fields),
    (b"hbox\nkern", 2, DocWhy::Fields),
    (b"hbox\nkern 1 2", 2, DocWhy::Fields),
    (b"hbox\npenalty", 2, DocWhy::Fields),
    (b"hbox\npenalty 1 2", 2, DocWhy::Fields),
    (b"hbox\nrule 1 2", 2, DocWhy::Fields),
    (b"hbox\nrule 1 2 3 4", 2, DocWhy::Fields),
    (b"hbox\nchar", 2, DocWhy::Fields),
    (b"hbox\nchar 1 2", 2, DocWhy::Fields),
    (b"hbox\nspace 1", 2, DocWhy::Fields),
    (b"hbox\ntext", 2, DocWhy::Fields),
    (b"hbox\ntext \t ", 2, DocWhy::Fields),
    // A name that no parameter of that sort has.
    (b"set foo 5", 1, DocWhy::Name),
    (b"set parskip 5", 1, DocWhy::Name),
    (b"set Hsize 5", 1, DocWhy::Name),
    (b"setglue hsize 0 0 0 0 0", 1, DocWhy::Name),
    (b"setglue foo 0 0 0 0 0", 1, DocWhy::Name),
];

/// The rows of that table, for the tests.
fn fields_and_names() -> &'static [(&'static [u8], u64, DocWhy)] {
    &FIELDS_AND_NAMES
}

#[test]
fn refuses_commands_in_wrong_places(rt: HostRuntime) {
    expect_faults(&rt, places(), 2);
}

#[test]
fn refuses_wrong_fields_and_names(rt: HostRuntime) {
    expect_faults(&rt, fields_and_names(), 2);
}
