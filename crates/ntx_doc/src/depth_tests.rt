use crate::command::Command;
use crate::fault::{DocFault, DocWhy};
use crate::tests::{commands_of, fault_of};
use ntx_item::PackTo;
use std::test::Fail as TestFail;

/// Lines, numbers of fonts, and why the line is refused then, if it is.
static FONTS: [(&[u8], u64, Option<DocWhy>); 6] = [
    (b"font 63", 64, None),
    (b"font 63", 65, None),
    (b"font 63", 63, Some(DocWhy::Font)),
    (b"font 0", 1, None),
    (b"font 1", 1, Some(DocWhy::Font)),
    (b"font 64", 65, Some(DocWhy::Range)),
];

/// The rows of that table, for the tests.
fn fonts() -> &'static [(&'static [u8], u64, Option<DocWhy>)] {
    &FONTS
}

/// Lines that stand between 20 lines `hbox` and 20 lines `end`, and the fault of that document, if it has one.
static NESTED: [(&[u8], Option<(u64, DocWhy)>); 12] = [
    (b"", None),
    (b"kern 1\n", None),
    (b"hbox\n", Some((21, DocWhy::Depth))),
    (b"hbox to 1\n", Some((21, DocWhy::Depth))),
    (b"hbox spread 1\n", Some((21, DocWhy::Depth))),
    (b"hbox to\n", Some((21, DocWhy::Fields))),
    (b"hbox to x\n", Some((21, DocWhy::Number))),
    (b"hbox to 1073741824\n", Some((21, DocWhy::Range))),
    (b"hbox \x7f\n", Some((21, DocWhy::Byte))),
    (b"end\nhbox\n", None),
    (b"end\nhbox\nhbox\n", Some((23, DocWhy::Depth))),
    (b"end\nhbox\nend\n", Some((43, DocWhy::Command))),
];

/// The rows of that table, for the tests.
fn nested() -> &'static [(&'static [u8], Option<(u64, DocWhy)>)] {
    &NESTED
}

#[test]
fn compares_a_font_with_the_number_of_fonts(rt: HostRuntime) {
    for (bytes, fonts, wanted) in fonts().iter() {
        let fault = wanted.map(|why| DocFault { line: 1, why });
        assert_eq!(rt; fault_of(&rt, bytes, *fonts), fault, "{bytes:?}");
    }
}

#[test]
fn boxes_nest_to_depth_20(rt: HostRuntime) -> Result<(), TestFail> {
    let mut opened = b"".to_vec(rt.alloc())?;
    let mut ends = b"".to_vec(rt.alloc())?;
    for _ in 0..20 {
        opened.extend_from_slice(b"hbox\n")?;
        ends.extend_from_slice(b"end\n")?;
    }
    for (middle, wanted) in nested().iter() {
        let mut document = opened.clone()?;
        document.extend_from_slice(middle)?;
        document.extend_from_slice(&ends)?;
        let fault = wanted.map(|(line, why)| DocFault { line, why });
        assert_eq!(rt; fault_of(&rt, &document, 0), fault, "{middle:?}");
    }
    Ok(())
}

#[test]
fn keeps_boxes_in_boxes(rt: HostRuntime) {
    let document =
        b"hbox\nkern 1\nhbox to 2\nkern 3\nhbox spread 4\nkern 5\nend\nkern 6\nend\nkern 7\nend";
    let commands = commands_of(&rt, document, 0);
    let [Command::HBox { to, body }] = commands.as_slice() else {
        panic!(rt; "not one box");
    };
    assert_eq!(rt; *to, PackTo::Additional(0));
    let [
        Command::Kern(1),
        Command::HBox { to, body },
        Command::Kern(7),
    ] = body.as_slice()
    else {
        panic!(rt; "not a box between kerns 1 and 7");
    };
    assert_eq!(rt; *to, PackTo::Exactly(2));
    let [
        Command::Kern(3),
        Command::HBox { to, body },
        Command::Kern(6),
    ] = body.as_slice()
    else {
        panic!(rt; "not a box between kerns 3 and 6");
    };
    assert_eq!(rt; *to, PackTo::Additional(4));
    let [Command::Kern(5)] = body.as_slice() else {
        panic!(rt; "not kern 5");
    };
}
