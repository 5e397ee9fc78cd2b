//! Breaks against a search that tries each sequence of places, with demerits that it adds up by itself.

use super::paragraph::{is_in_range, paragraph};
use crate::break_items;
use ntx_item::{Item, Param, Params};
use ntx_legal::{Line, line, places};
use std::alloc::Global;
use std::process::Abort;
use std::test;

/// A pass.
#[derive(Clone, Copy)]
struct Rules {
    number: u8,
    discs: bool,
    threshold: i64,
    extra: i64,
}

/// The best sequence of a pass.
#[derive(Clone, Copy)]
struct Best {
    demerits: i64,
    found: bool,
}

/// The penalty of a break.
fn penalty(items: &[Item], params: &Params, place: u64) -> i64 {
    let place = place as usize;
    if place == 0 || place > items.len() {
        return -10_000;
    }
    let p = match &items[place - 1] {
        Item::Penalty { p } => *p,
        Item::Disc { pre_empty, .. } => {
            if *pre_empty {
                params.exhyphenpenalty
            } else {
                params.hyphenpenalty
            }
        },
        _ => 0,
    };
    p.max(-10_000)
}

/// Whether a place is at a discretionary or at the end.
fn has_hyphen(items: &[Item], place: u64) -> bool {
    let place = place as usize;
    if place == 0 {
        return false;
    }
    place > items.len() || matches!(&items[place - 1], Item::Disc { .. })
}

/// What a line is charged.
fn charge(items: &[Item], params: &Params, from: u64, to: u64, before: u8, line: Line) -> i64 {
    let sum = params.linepenalty.wrapping_add(line.b);
    let mut total = if -10_000 < sum && sum < 10_000 {
        sum.wrapping_mul(sum)
    } else {
        100_000_000
    };
    let p = penalty(items, params, to);
    if p > 0 {
        total = total.wrapping_add(p.wrapping_mul(p));
    } else if p > -10_000 {
        total = total.wrapping_sub(p.wrapping_mul(p));
    }
    if has_hyphen(items, from) && has_hyphen(items, to) {
        total = total.wrapping_add(if to as usize > items.len() {
            params.finalhyphendemerits
        } else {
            params.doublehyphendemerits
        });
    }
    if before.abs_diff(line.class) > 1 {
        total = total.wrapping_add(params.adjdemerits);
    }
    total
}

/// The demerits of the lines that end at the marked places and at the last one, if no line is too bad and none passes a place that it may not
/// pass.
fn demerits_of(
    rt: &impl Abort,
    items: &[Item],
    params: &Params,
    rules: Rules,
    places: &[u64],
    marks: u64,
) -> Option<i64> {
    assert!(rt; is_in_range(items));
    assert!(rt; 0 <= rules.extra);
    assert!(rt; rules.extra < 1_073_741_824);
    let mut from = 0;
    let mut class = 2;
    let mut total = 0i64;
    for i in 0..places.len() {
        let to = places[i];
        assert!(rt; i < 64);
        assert!(rt; from < to);
        assert!(rt; to <= items.len() as u64 + 1);
        let line = line(items, params, from, to, rules.extra);
        if i + 1 == places.len() || (marks >> (i as u32)) & 1 == 1 {
            if line.b > rules.threshold {
                return None;
            }
            total = total.wrapping_add(charge(items, params, from, to, class, line));
            from = to;
            class = line.class;
        } else if line.b > 10_000 || penalty(items, params, to) == -10_000 {
            return None;
        }
    }
    Some(total)
}

/// The least demerits of all sequences of a pass.
fn least(rt: &impl Abort, items: &[Item], params: &Params, rules: Rules, places: &[u64]) -> Best {
    let mut best = Best {
        demerits: 0,
        found: false,
    };
    assert!(rt; 0 < places.len());
    assert!(rt; places.len() < 12);
    for marks in 0..1u64 << (places.len() as u32 - 1) {
        if let Some(demerits) = demerits_of(rt, items, params, rules, places, marks) {
            if !best.found || demerits < best.demerits {
                best = Best {
                    demerits,
                    found: true,
                };
            }
        }
    }
    best
}

/// The marks of the places that are among others.
fn marks_of(rt: &impl Abort, places: &[u64], chosen: &[u64]) -> u64 {
    let mut marks = 0u64;
    for i in 0..places.len() {
        assert!(rt; i < 64);
        if chosen.contains(&places[i]) {
            marks |= 1u64 << (i as u32);
        }
    }
    marks
}

/// The breaks of a paragraph are the best of the first pass that has a sequence; if none has one, the last pass takes a line that is too bad.
fn are_best(
    rt: &impl Abort,
    alloc: Global,
    items: &[Item],
    params: &Params,
    passes: &[Rules],
) -> Result<(), test::Fail> {
    assert!(rt; is_in_range(items));
    let breaks = break_items(alloc, items, params)?;
    for rules in passes {
        let places = places(alloc, items, params, rules.discs)?;
        let best = least(rt, items, params, *rules, &places);
        if best.found {
            let marks = marks_of(rt, &places, &breaks.places);
            assert!(rt; breaks.pass == rules.number);
            assert!(rt; !breaks.last_resort);
            assert!(rt;
                demerits_of(rt, items, params, *rules, &places, marks) == Some(best.demerits)
            );
            assert!(rt;
                breaks.demerits == best.demerits
                    || breaks.artificial && breaks.demerits < best.demerits
            );
            return Ok(());
        }
    }
    assert!(rt; breaks.last_resort);
    Ok(())
}

/// The same of a text in lines of four widths, without and with emergency stretch.
fn text_is_best(rt: &impl Abort, alloc: Global, text: &str) -> Result<(), test::Fail> {
    let items = paragraph(alloc, text)?;
    for hsize in [655_360, 1_000_000, 1_474_560, 2_129_920] {
        for extra in [0, 1_000_000] {
            let mut params = Params::plain();
            assert!(rt; params.put(Param::Hsize, hsize).is_ok());
            assert!(rt; params.put(Param::Emergencystretch, extra).is_ok());
            let first = Rules {
                number: 1,
                discs: false,
                threshold: 100,
                extra: 0,
            };
            let second = Rules {
                number: 2,
                discs: true,
                threshold: 200,
                extra: 0,
            };
            let third = Rules {
                number: 3,
                discs: true,
                threshold: 200,
                extra,
            };
            let passes = [first, second, third];
            are_best(rt, alloc, &items, &params, &passes)?;
        }
    }
    Ok(())
}

#[test]
fn breaks_of_words_are_best(rt: HostRuntime) -> Result<(), test::Fail> {
    let table = [
        "aa aa aa aaPi",
        "a a a a aPi",
        "b b b bPi",
        "aka k aaPi",
        "a  a  aPi",
        "na na naPi",
        "rrr rrr rrPi",
        "ab ab abPi",
        "aiaiaPi",
        "aa aa a aPs",
    ];
    for text in table {
        text_is_best(&rt, rt.alloc(), text)?;
    }
    Ok(())
}

#[test]
fn breaks_with_penalties_and_hyphens_are_best(rt: HostRuntime) -> Result<(), test::Fail> {
    let table = [
        "aa aaa-aaaPi",
        "aaa-aaa-aaPi",
        "a-a-a-a aPi",
        "aapaa aapaPi",
        "aaFaa aaPi",
        "a qa qaPi",
        "ada da aPi",
        "aa=aa aaPi",
        "aea ea aaPi",
        "a-a da-aPi",
    ];
    for text in table {
        text_is_best(&rt, rt.alloc(), text)?;
    }
    Ok(())
}
