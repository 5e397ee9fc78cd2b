//! Whole runs where nothing fails.

use crate::job::{BOX, BOX_FILE, FILES, Job, of_document};
use ntx_doc::{DocFault, DocWhy};
use ntx_run::{Place, Status};
use ntx_syntax::{SyntaxFault, SyntaxWhy};
use std::test::Fail;

/// The preamble.
const PREAMBLE: [u8; 18] = [
    0xf7, 0x02, 0x01, 0x83, 0x92, 0xc0, 0x1c, 0x3b, 0x00, 0x00, 0x00, 0x00, 0x03, 0xe8, 0x03, 0x6e,
    0x74, 0x78,
];

#[test]
fn a_box_with_one_rule_is_one_page(rt: HostRuntime) -> Result<(), Fail> {
    let alloc = rt.alloc();
    let given = of_document(BOX).run(alloc)?;
    assert_eq!(rt; given.outcome.status, Status::Done);
    assert_eq!(rt; given.outcome.place, None);
    assert_eq!(rt; given.lines.as_slice(), b"".as_slice());
    assert_eq!(rt; given.dvi.as_slice(), BOX_FILE.as_slice());
    Ok(())
}

#[test]
fn an_empty_document_is_a_file_without_pages(rt: HostRuntime) -> Result<(), Fail> {
    let alloc = rt.alloc();
    let given = of_document(b"").run(alloc)?;
    assert_eq!(rt; given.outcome.status, Status::Done);
    let mut file = PREAMBLE.to_vec(alloc)?;
    file.extend_from_slice(&[
        0xf8, 0xff, 0xff, 0xff, 0xff, 0x01, 0x83, 0x92, 0xc0, 0x1c, 0x3b, 0x00, 0x00, 0x00, 0x00,
        0x03, 0xe8, 0x00, 0x00, 0x00, 0x00, 0x00, 0x00, 0x00, 0x00, 0x00, 0x00, 0x00, 0x00,
    ])?;
    file.extend_from_slice(&[0xf9, 0x00, 0x00, 0x00, 0x12, 0x02])?;
    file.extend_from_slice(&[0xdf; 7])?;
    assert_eq!(rt; given.dvi.as_slice(), file.as_slice());
    Ok(())
}

#[test]
fn an_empty_box_is_a_page_without_marks(rt: HostRuntime) -> Result<(), Fail> {
    let alloc = rt.alloc();
    let given = of_document(b"hbox\nend\n").run(alloc)?;
    assert_eq!(rt; given.outcome.status, Status::Done);
    let mut file = PREAMBLE.to_vec(alloc)?;
    file.extend_from_slice(&[0x8b, 0x00, 0x00, 0x00, 0x01])?;
    file.extend_from_slice(&[0x00; 36])?;
    file.extend_from_slice(&[0xff, 0xff, 0xff, 0xff, 0x8c])?;
    file.extend_from_slice(&[
        0xf8, 0x00, 0x00, 0x00, 0x12, 0x01, 0x83, 0x92, 0xc0, 0x1c, 0x3b, 0x00, 0x00, 0x00, 0x00,
        0x03, 0xe8, 0x00, 0x0a, 0x00, 0x00, 0x00, 0x00, 0x00, 0x00, 0x00, 0x00, 0x00, 0x01,
    ])?;
    file.extend_from_slice(&[0xf9, 0x00, 0x00, 0x00, 0x40, 0x02])?;
    file.extend_from_slice(&[0xdf; 5])?;
    assert_eq!(rt; given.dvi.as_slice(), file.as_slice());
    Ok(())
}

#[test]
fn a_mark_stands_after_the_rules_before_it(rt: HostRuntime) -> Result<(), Fail> {
    let document = b"hbox\nrule 10 0 0\nrule 20 1000000 0\nrule 0 5 5\nrule 300 4 2\nend\n";
    let given = of_document(document).run(rt.alloc())?;
    assert_eq!(rt; given.outcome.status, Status::Done);
    assert_eq!(rt; given.dvi.get(63..96), Some([
        0x8d, // push
        0x8f, 0x0a, 0x9f, 0x0f, 0x42, 0x40, // right 10, down 1000000
        0x84, 0x00, 0x0f, 0x42, 0x40, 0x00, 0x00, 0x00, 0x14, // rule 1000000 20
        0x9d, 0x02, // down 2, from h 30 on, where the third rule draws nothing
        0x84, 0x00, 0x00, 0x00, 0x06, 0x00, 0x00, 0x01, 0x2c, // rule 6 300
        0x8e, 0x8c, 0xf8, 0x00, 0x00, 0x00, // pop, eop, post
    ].as_slice()));
    Ok(())
}

#[test]
fn five_hundred_rules_are_marked(rt: HostRuntime) -> Result<(), Fail> {
    let alloc = rt.alloc();
    let mut document = b"hbox\n".to_vec(alloc)?;
    let mut file = PREAMBLE.to_vec(alloc)?;
    file.extend_from_slice(&[0x8b, 0x00, 0x00, 0x00, 0x01])?;
    file.extend_from_slice(&[0x00; 36])?;
    file.extend_from_slice(&[0xff, 0xff, 0xff, 0xff, 0x8d, 0x9f, 0x0a, 0x00, 0x03])?;
    for _ in 0..500 {
        document.extend_from_slice(b"rule 1 2 3\n")?;
        file.extend_from_slice(&[0x84, 0x00, 0x00, 0x00, 0x05, 0x00, 0x00, 0x00, 0x01])?;
    }
    document.extend_from_slice(b"end")?;
    file.extend_from_slice(&[
        0x8e, 0x8c, 0xf8, 0x00, 0x00, 0x00, 0x12, 0x01, 0x83, 0x92, 0xc0, 0x1c, 0x3b, 0x00, 0x00,
        0x00, 0x00, 0x03, 0xe8, 0x00, 0x0a, 0x00, 0x03, 0x00, 0x00, 0x01, 0xf4, 0x00, 0x01, 0x00,
        0x01, 0xf9, 0x00, 0x00, 0x11, 0xda, 0x02, 0xdf, 0xdf, 0xdf, 0xdf, 0xdf, 0xdf, 0xdf,
    ])?;
    let given = of_document(document.as_slice()).run(alloc)?;
    assert_eq!(rt; given.outcome.status, Status::Done);
    assert_eq!(rt; given.dvi.as_slice(), file.as_slice());
    Ok(())
}

#[test]
fn a_refusal_has_its_status_place_and_line(rt: HostRuntime) -> Result<(), Fail> {
    let alloc = rt.alloc();
    let two: [&str; 2] = ["a", "b"];
    let option: [&str; 5] = ["--help", "a", "b", "c", "d"];
    let no_steps: [&str; 5] = ["--steps=0", "a", "b", "c", "d"];
    let font: [&str; 5] = ["a", "b", "c", "d", "T.tfm@655360"];
    let hyphen: [&str; 4] = ["a", "-b", "c", "d"];
    let table = [
        (
            Job {
                words: &two,
                ..of_document(BOX)
            },
            Status::Words,
            "! Words\n",
        ),
        (
            Job {
                words: &option,
                ..of_document(BOX)
            },
            Status::Words,
            "! Words\n",
        ),
        (
            Job {
                words: &no_steps,
                ..of_document(BOX)
            },
            Status::Words,
            "! Words\n",
        ),
        (
            Job {
                words: &font,
                ..of_document(BOX)
            },
            Status::Words,
            "! Words\n",
        ),
        (
            Job {
                words: &hyphen,
                ..of_document(b"foo")
            },
            Status::Words,
            "! Words\n",
        ),
        (
            of_document(b"foo"),
            Status::Document,
            "! Document line 1 Command\n",
        ),
        (
            of_document(b"hbox\nrule 1 2 x\n"),
            Status::Document,
            "! Document line 2 Number\n",
        ),
        (
            Job {
                script: b"x",
                ..of_document(b"foo")
            },
            Status::Document,
            "! Document line 1 Command\n",
        ),
        (
            Job {
                script: b"x",
                patterns: b"y",
                ..of_document(BOX)
            },
            Status::Script,
            "! Script line 0 Size\n",
        ),
        (
            Job {
                patterns: b"y",
                ..of_document(BOX)
            },
            Status::Patterns,
            "! Patterns line 0\n",
        ),
    ];
    for (job, status, line) in table {
        let given = job.run(alloc)?;
        assert_eq!(rt; given.outcome.status, status, "{line}");
        assert_eq!(rt; given.lines.as_slice(), line.as_bytes());
        assert_eq!(rt; given.dvi.len(), 0, "{line}");
    }
    Ok(())
}

#[test]
fn the_place_of_a_refused_document_is_its_line(rt: HostRuntime) -> Result<(), Fail> {
    let given = of_document(b"hbox\n\nend x\n").run(rt.alloc())?;
    let fault = DocFault {
        line: 3,
        why: DocWhy::Fields,
    };
    assert_eq!(rt; given.outcome.place, Some(Place::Doc(fault)));
    Ok(())
}

#[test]
fn the_place_of_a_script_that_is_not_empty_is_line_0(rt: HostRuntime) -> Result<(), Fail> {
    let given = Job {
        script: b"x",
        ..of_document(BOX)
    }
    .run(rt.alloc())?;
    let fault = SyntaxFault {
        line: 0,
        why: SyntaxWhy::Size,
    };
    assert_eq!(rt; given.outcome.place, Some(Place::Syntax(fault)));
    Ok(())
}

#[test]
fn an_option_stands_before_two_hyphens(rt: HostRuntime) -> Result<(), Fail> {
    let words: [&str; 7] = ["a", "--steps", "5", "b", "--", "--c", "-d"];
    let given = Job {
        words: &words,
        ..of_document(BOX)
    }
    .run(rt.alloc())?;
    assert_eq!(rt; given.outcome.status, Status::Done);
    Ok(())
}

#[test]
fn a_hyphen_alone_names_a_file(rt: HostRuntime) -> Result<(), Fail> {
    let words: [&str; 4] = [FILES[0], "-", "", FILES[3]];
    let given = Job {
        words: &words,
        ..of_document(BOX)
    }
    .run(rt.alloc())?;
    assert_eq!(rt; given.outcome.status, Status::Done);
    Ok(())
}
