//! The nodes that a run leaves.

use crate::fonts::font_of;
use crate::job::{BOX, Fails, FontFile, Job, of_document};
use ntx_nodes::{Phase, Trouble};
use ntx_run::{Place, Status};
use std::test::Fail;

/// A rule whose lower edge is at 2^30 on the page.
const TOO_LOW: &[u8] = b"hbox\nrule 1 1073741823 1\nend";

/// How a run ends.
#[derive(Clone, Copy)]
struct Expected<'a> {
    /// What it is given.
    job: Job<'a>,
    /// Its status.
    status: Status,
    /// What it prints.
    lines: &'a [u8],
    /// How many bytes of the DVI file were taken.
    bytes: usize,
    /// How many nodes are left, if they are given back.
    live: Option<u64>,
}

#[test]
fn nodes_are_given_back_if_a_machine_was_made(rt: HostRuntime) -> Result<(), Fail> {
    let alloc = rt.alloc();
    let no_lines = Fails {
        lines: Some(1),
        ..Fails::default()
    };
    let no_file = Fails {
        dvi: Some(1),
        ..Fails::default()
    };
    let no_document = Fails {
        doc: Some(1),
        ..Fails::default()
    };
    let table = [
        Expected {
            job: of_document(BOX),
            status: Status::Done,
            lines: b"",
            bytes: 120,
            live: Some(0),
        },
        Expected {
            job: Job {
                words: &["a", "b"],
                ..of_document(BOX)
            },
            status: Status::Words,
            lines: b"! Words\n",
            bytes: 0,
            live: None,
        },
        Expected {
            job: of_document(b"foo"),
            status: Status::Document,
            lines: b"! Document line 1 Command\n",
            bytes: 0,
            live: None,
        },
        Expected {
            job: Job {
                script: b"x",
                ..of_document(BOX)
            },
            status: Status::Script,
            lines: b"! Script line 0 Size\n",
            bytes: 0,
            live: None,
        },
        Expected {
            job: Job {
                patterns: b"x",
                ..of_document(BOX)
            },
            status: Status::Patterns,
            lines: b"! Patterns line 0\n",
            bytes: 0,
            live: None,
        },
        Expected {
            job: Job {
                fails: no_document,
                ..of_document(BOX)
            },
            status: Status::ReadFault,
            lines: b"! ReadFault document\n",
            bytes: 0,
            live: None,
        },
        // Two kerns, too wide together.
        Expected {
            job: of_document(b"hbox\nkern 1073741823\nkern 1073741823\nend"),
            status: Status::EngineFault,
            lines: b"! EngineFault Dimension in hpack\n",
            bytes: 0,
            live: Some(2),
        },
        // The preamble was written, and the page was refused.
        Expected {
            job: of_document(TOO_LOW),
            status: Status::EngineFault,
            lines: b"! EngineFault Dimension in ship\n",
            bytes: 18,
            live: Some(4),
        },
        // The page's nodes are freed before its bytes are taken.
        Expected {
            job: Job {
                fails: no_file,
                ..of_document(BOX)
            },
            status: Status::WriteFault,
            lines: b"",
            bytes: 0,
            live: Some(0),
        },
        Expected {
            job: Job {
                fails: no_lines,
                ..of_document(TOO_LOW)
            },
            status: Status::WriteFault,
            lines: b"",
            bytes: 18,
            live: Some(4),
        },
        Expected {
            job: Job {
                fails: no_lines,
                ..of_document(b"foo")
            },
            status: Status::WriteFault,
            lines: b"",
            bytes: 0,
            live: None,
        },
    ];
    for expected in &table {
        let (given, live) = expected.job.run_over(alloc)?;
        assert_eq!(rt; given.outcome.status, expected.status);
        assert_eq!(rt; given.lines.as_slice(), expected.lines);
        assert_eq!(rt; given.dvi.len(), expected.bytes);
        assert_eq!(rt; live, expected.live);
    }
    Ok(())
}

#[test]
fn trouble_is_named_with_its_phase(rt: HostRuntime) -> Result<(), Fail> {
    let alloc = rt.alloc();
    let bytes = font_of(alloc, 101, 0)?;
    let fonts = [FontFile {
        name: "T",
        bytes: bytes.as_slice(),
        fails: None,
    }];
    let job = Job {
        words: &["a", "b", "c", "d", "T.tfm"],
        fonts: &fonts,
        ..of_document(b"hbox\ntext A\nend")
    };
    let given = job.run(alloc)?;
    assert_eq!(rt; given.outcome.status, Status::EngineFault);
    assert_eq!(rt;
        given.outcome.place,
        Some(Place::Engine(Trouble::NoChar(1), Phase::Hpack))
    );
    assert_eq!(rt;
        given.lines.as_slice(),
        b"! EngineFault NoChar in hpack\n".as_slice()
    );
    Ok(())
}
