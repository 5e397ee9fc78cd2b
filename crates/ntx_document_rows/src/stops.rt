//! Documents that cannot be typeset.

use crate::files::PREAMBLE;
use crate::typeset::typeset;
use ntx_nodes::{Phase, Trouble};
use ntx_run::{Place, Status};
use std::test::Fail;

#[test]
fn the_first_trouble_ends_a_run(rt: HostRuntime) -> Result<(), Fail> {
    let alloc = rt.alloc();
    let table: [(&[u8], Trouble, Phase, usize, u64); 4] = [
        // The font has no character 65. The glyph stays, under the first name.
        (b"hbox\ntext A\nend", Trouble::NoChar(1), Phase::Hpack, 0, 1),
        // A natural width of 2^31-2.
        (
            b"hbox\nkern 1073741823\nkern 1073741823\nend",
            Trouble::Dimension,
            Phase::Hpack,
            0,
            2,
        ),
        // The inner box is packed, the outer one is not. Three nodes stay: the kern, its box, and the kern after the box.
        (
            b"hbox\nhbox\nkern 1073741823\nend\nkern 1\nend",
            Trouble::Dimension,
            Phase::Hpack,
            0,
            3,
        ),
        // The rule's lower edge is at 2^30. The rule, its box, the glue above it and the page stay.
        (
            b"hbox\nrule 1 1073741823 1\nend",
            Trouble::Dimension,
            Phase::Ship,
            18,
            4,
        ),
    ];
    for (document, why, phase, bytes, live) in table {
        let given = typeset(alloc, document)?;
        assert_eq!(rt; given.status, Status::EngineFault);
        assert_eq!(rt; given.place, Some(Place::Engine(why, phase)));
        assert_eq!(rt; Some(given.dvi.as_slice()), PREAMBLE.get(..bytes));
        assert_eq!(rt; given.live, Some(live));
    }
    Ok(())
}

#[test]
fn a_65th_attribute_is_refused_where_it_is_set(rt: HostRuntime) -> Result<(), Fail> {
    let alloc = rt.alloc();
    let mut document = String::new(alloc);
    for id in 0..65u64 {
        document.push_str(format!(in alloc; "attr {id} 1\n")?.as_str())?;
    }
    let given = typeset(alloc, document.as_bytes())?;
    assert_eq!(rt;
        given.place,
        Some(Place::Engine(Trouble::AttrFull, Phase::Build))
    );
    document.push_str("noattr 7")?;
    let again = typeset(alloc, document.as_bytes())?;
    assert_eq!(rt;
        again.place,
        Some(Place::Engine(Trouble::AttrFull, Phase::Build))
    );
    Ok(())
}
