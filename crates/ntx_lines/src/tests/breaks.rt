//! Each kind of break, worked out by hand.

use super::compare::{Line, Wanted, line_is, nodes_are};
use super::matter::{SPACE, ZERO, broken, list_of, params_of};
use ntx_item::{GlueParam, GlueSpec, Param, Params};
use ntx_nodes::{Nodes, PlainHeap, Trouble};
use ntx_num::Fail;
use std::alloc::Global;
use std::process::Abort;
use std::test;

/// Rightskip of zeros.
const END: Wanted = Wanted::Glue(9, ZERO);

/// The glue between two lines of rules, which are 7 high and 2 deep: baselineskip is 786432.
const BETWEEN: Wanted = Wanted::Glue(
    2,
    GlueSpec {
        width: 786_423,
        ..ZERO
    },
);

/// A line of these nodes that is 100 wide, and whose glue is not set.
fn line<'a>(list: &'a [Wanted]) -> Line<'a> {
    Line {
        size: (100, 7, 2),
        glue: (0, 0, 0, 1),
        list,
    }
}

/// A paragraph of two lines, each 100 wide, with this penalty after the first. Afterwards so many nodes are live.
fn two_lines(
    rt: &impl Abort,
    alloc: Global,
    text: &str,
    first: &[Wanted],
    penalty: i64,
    second: &[Wanted],
    live: u64,
) -> Result<(), Fail<Trouble>> {
    let mut heap = PlainHeap::new(alloc, 1)?;
    let head = list_of(&mut heap, text)?;
    let params = params_of(100, ZERO, ZERO);
    let (head, count) = broken(alloc, &mut heap, &[], head, &params)?;
    assert!(rt; count == 2);
    let at = line_is(rt, &heap, Some(head), &line(first))?;
    let at = nodes_are(rt, &heap, at, &[Wanted::Penalty(penalty), BETWEEN])?;
    let at = line_is(rt, &heap, at, &line(second))?;
    assert!(rt; at.is_none());
    assert!(rt; heap.live() == live);
    Ok(())
}

#[test]
fn one_line_has_rightskip_at_its_end(rt: HostRuntime) -> Result<(), test::Fail> {
    let mut heap = PlainHeap::new(rt.alloc(), 1)?;
    let head = list_of(&mut heap, "r")?;
    let params = params_of(100, ZERO, ZERO);
    let (head, count) = broken(rt.alloc(), &mut heap, &[], head, &params)?;
    assert!(rt; (head, count) == (3, 1));
    let at = line_is(&rt, &heap, Some(head), &line(&[Wanted::Rule(100), END]))?;
    assert!(rt; at.is_none());
    Ok(())
}

#[test]
fn glue_becomes_rightskip(rt: HostRuntime) -> Result<(), test::Fail> {
    let one = [Wanted::Rule(100), END];
    two_lines(&rt, rt.alloc(), "r r", &one, 300, &one, 8)?;
    Ok(())
}

#[test]
fn a_kern_comes_to_nothing(rt: HostRuntime) -> Result<(), test::Fail> {
    let first = [Wanted::Rule(100), Wanted::Kern(1, 0), END];
    two_lines(
        &rt,
        rt.alloc(),
        "rk r",
        &first,
        300,
        &[Wanted::Rule(100), END],
        9,
    )?;
    Ok(())
}

#[test]
fn a_penalty_stays_and_what_follows_is_discarded(rt: HostRuntime) -> Result<(), test::Fail> {
    let first = [Wanted::Rule(100), Wanted::Penalty(-10_000), END];
    two_lines(
        &rt,
        rt.alloc(),
        "rFk pr",
        &first,
        300,
        &[Wanted::Rule(100), END],
        9,
    )?;
    let second = [Wanted::Kern(0, 3), Wanted::Rule(97), END];
    two_lines(&rt, rt.alloc(), "rFnt", &first, 300, &second, 10)?;
    Ok(())
}

#[test]
fn a_disc_is_replaced(rt: HostRuntime) -> Result<(), test::Fail> {
    let first = [Wanted::Rule(90), Wanted::Rule(10), END];
    let second = [Wanted::Rule(10), Wanted::Rule(90), END];
    two_lines(&rt, rt.alloc(), "s=s", &first, 400, &second, 10)?;
    let kept = [
        Wanted::Rule(10),
        Wanted::Glue(0, SPACE),
        Wanted::Rule(80),
        END,
    ];
    two_lines(&rt, rt.alloc(), "s= u", &first, 400, &kept, 11)?;
    let last = [Wanted::Rule(100), END];
    two_lines(&rt, rt.alloc(), "s- r", &first, 400, &last, 9)?;
    two_lines(&rt, rt.alloc(), "rer", &last, 400, &last, 8)?;
    Ok(())
}

#[test]
fn a_line_of_nothing_has_rightskip_alone(rt: HostRuntime) -> Result<(), test::Fail> {
    let mut heap = PlainHeap::new(rt.alloc(), 1)?;
    let head = list_of(&mut heap, "rF ")?;
    let params = params_of(100, ZERO, ZERO);
    let (head, count) = broken(rt.alloc(), &mut heap, &[], head, &params)?;
    assert!(rt; count == 2);
    let first = [Wanted::Rule(100), Wanted::Penalty(-10_000), END];
    let at = line_is(&rt, &heap, Some(head), &line(&first))?;
    let between = Wanted::Glue(
        2,
        GlueSpec {
            width: 786_430,
            ..ZERO
        },
    );
    let at = nodes_are(&rt, &heap, at, &[Wanted::Penalty(300), between])?;
    let empty = Line {
        size: (100, 0, 0),
        glue: (0, 0, 0, 1),
        list: &[END],
    };
    let at = line_is(&rt, &heap, at, &empty)?;
    assert!(rt; at.is_none());
    Ok(())
}

/// The defaults for lines 100 wide with these penalties between them.
fn with_penalties(interline: i64, club: i64, widow: i64, broken: i64) -> Params {
    let mut params = params_of(100, ZERO, ZERO);
    let _set = params.put(Param::Interlinepenalty, interline);
    let _set = params.put(Param::Clubpenalty, club);
    let _set = params.put(Param::Widowpenalty, widow);
    let _set = params.put(Param::Brokenpenalty, broken);
    params
}

/// The penalties after the lines of a paragraph are these; after a line of penalty 0 there is none.
fn penalties_are(
    rt: &impl Abort,
    alloc: Global,
    text: &str,
    params: &Params,
    penalties: &[i64],
) -> Result<(), Fail<Trouble>> {
    let mut heap = PlainHeap::new(alloc, 1)?;
    let head = list_of(&mut heap, text)?;
    let (head, _count) = broken(alloc, &mut heap, &[], head, params)?;
    let mut at = Some(head);
    for penalty in penalties {
        at = nodes_are(rt, &heap, at, &[Wanted::Other])?;
        if *penalty != 0 {
            at = nodes_are(rt, &heap, at, &[Wanted::Penalty(*penalty)])?;
        }
        at = nodes_are(rt, &heap, at, &[BETWEEN])?;
    }
    let at = nodes_are(rt, &heap, at, &[Wanted::Other])?;
    assert!(rt; at.is_none());
    Ok(())
}

#[test]
fn penalties_stand_between_lines(rt: HostRuntime) -> Result<(), test::Fail> {
    let each = with_penalties(1, 10, 100, 1000);
    penalties_are(&rt, rt.alloc(), "r", &each, &[])?;
    penalties_are(&rt, rt.alloc(), "r r", &each, &[111])?;
    penalties_are(&rt, rt.alloc(), "r r r", &each, &[11, 101])?;
    penalties_are(&rt, rt.alloc(), "r r r r", &each, &[11, 1, 101])?;
    penalties_are(&rt, rt.alloc(), "s-r r", &each, &[1011, 101])?;
    penalties_are(&rt, rt.alloc(), "r s-r", &each, &[11, 1101])?;
    let none = with_penalties(-10, 10, 0, 0);
    penalties_are(&rt, rt.alloc(), "r r r", &none, &[0, -10])?;
    Ok(())
}

#[test]
fn close_lines_have_lineskip(rt: HostRuntime) -> Result<(), test::Fail> {
    for (baselines, subtype, width) in [(9, 2, 0), (10, 2, 1), (8, 1, 65_536)] {
        let mut params = with_penalties(0, 0, 0, 0);
        let spec = GlueSpec {
            width: baselines,
            ..ZERO
        };
        let _set = params.put_glue(GlueParam::Baselineskip, spec);
        let mut heap = PlainHeap::new(rt.alloc(), 1)?;
        let head = list_of(&mut heap, "r r")?;
        let (head, _count) = broken(rt.alloc(), &mut heap, &[], head, &params)?;
        let between = Wanted::Glue(subtype, GlueSpec { width, ..ZERO });
        let at = nodes_are(
            &rt,
            &heap,
            Some(head),
            &[Wanted::Other, between, Wanted::Other],
        )?;
        assert!(rt; at.is_none());
    }
    Ok(())
}
