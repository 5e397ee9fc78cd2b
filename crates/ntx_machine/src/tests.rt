//! What no contract says in words: the names of troubles and phases. Documents are typeset by the crate `ntx_document_rows`.

use crate::{phase_name, trouble_name};
use ntx_nodes::{Phase, Trouble};
use std::test::Fail;

#[test]
fn troubles_and_phases_have_names(rt: HostRuntime) -> Result<(), Fail> {
    assert_eq!(rt; trouble_name(Trouble::NoChar(1)), "NoChar");
    assert_eq!(rt; phase_name(Phase::Hpack), "hpack");
    Ok(())
}
