//! Runs in which a source or a sink fails.

use crate::job::{BOX, BOX_FILE, Fails, Given, Job, of_document};
use ntx_run::{Place, Status, Which};
use std::alloc::Global;
use std::test::Fail;

fn run(alloc: Global, fails: Fails) -> Result<Given, Fail> {
    Job {
        fails,
        ..of_document(BOX)
    }
    .run(alloc)
}

#[test]
fn a_source_that_fails_ends_the_run_with_its_line(rt: HostRuntime) -> Result<(), Fail> {
    let alloc = rt.alloc();
    for k in 1..9 {
        let table = [
            (
                Fails {
                    doc: Some(k),
                    ..Fails::default()
                },
                Which::Document,
                "! ReadFault document\n",
                2,
            ),
            (
                Fails {
                    script: Some(k),
                    ..Fails::default()
                },
                Which::Script,
                "! ReadFault script\n",
                1,
            ),
            (
                Fails {
                    patterns: Some(k),
                    ..Fails::default()
                },
                Which::Patterns,
                "! ReadFault patterns\n",
                1,
            ),
        ];
        for (fails, which, line, calls) in table {
            let given = run(alloc, fails)?;
            if k <= calls {
                assert_eq!(rt; given.outcome.status, Status::ReadFault, "call {k}: {line}");
                assert_eq!(rt; given.outcome.place, Some(Place::Input(which)));
                assert_eq!(rt; given.lines.as_slice(), line.as_bytes());
                assert_eq!(rt; given.dvi.len(), 0);
            } else {
                assert_eq!(rt; given.outcome.status, Status::Done, "call {k}: {line}");
                assert_eq!(rt; given.dvi.as_slice(), BOX_FILE.as_slice());
            }
        }
    }
    Ok(())
}

#[test]
fn a_sink_that_fails_has_taken_the_first_bytes(rt: HostRuntime) -> Result<(), Fail> {
    let alloc = rt.alloc();
    // The file is one piece.
    for (k, status, taken) in [
        (1, Status::WriteFault, 0),
        (2, Status::Done, 120),
        (3, Status::Done, 120),
        (4, Status::Done, 120),
        (5, Status::Done, 120),
        (6, Status::Done, 120),
        (7, Status::Done, 120),
        (8, Status::Done, 120),
    ] {
        let given = run(
            alloc,
            Fails {
                dvi: Some(k),
                ..Fails::default()
            },
        )?;
        assert_eq!(rt; given.outcome.status, status, "call {k}");
        assert_eq!(rt; given.outcome.place, None);
        assert_eq!(rt; Some(given.dvi.as_slice()), BOX_FILE.get(..taken));
        assert_eq!(rt; given.lines.len(), 0);
    }
    Ok(())
}

#[test]
fn a_line_that_cannot_be_written_is_a_write_fault(rt: HostRuntime) -> Result<(), Fail> {
    let alloc = rt.alloc();
    let no_lines = Fails {
        lines: Some(1),
        ..Fails::default()
    };
    let refused = Job {
        fails: no_lines,
        ..of_document(b"foo")
    }
    .run(alloc)?;
    assert_eq!(rt; refused.outcome.status, Status::WriteFault);
    assert_eq!(rt; refused.lines.len(), 0);
    let unread = run(
        alloc,
        Fails {
            doc: Some(1),
            ..no_lines
        },
    )?;
    assert_eq!(rt; unread.outcome.status, Status::WriteFault);
    Ok(())
}

#[test]
fn lines_that_fail_leave_a_run_without_lines_alone(rt: HostRuntime) -> Result<(), Fail> {
    let alloc = rt.alloc();
    for k in 1..9 {
        let given = run(
            alloc,
            Fails {
                lines: Some(k),
                ..Fails::default()
            },
        )?;
        assert_eq!(rt; given.outcome.status, Status::Done, "call {k}");
        assert_eq!(rt; given.lines.len(), 0);
        assert_eq!(rt; given.dvi.as_slice(), BOX_FILE.as_slice());
    }
    Ok(())
}
