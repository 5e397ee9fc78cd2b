//! The laws of packing, as a crate above names them: each is the contract of a function that does nothing.

ghost use Rattle.ntx_pack.specs.Laws.{VerticalListsStack, BoxesAreSized, NaturalBoxesAreUnset, SetSizesGrow, SetSizesAddUp, BoxesAreFilled, OverfullBoxesShrinkFully, OtherSizesStay, TotalsStayBounded, BoxesHoldTheirLists};

use ntx_pack::{
    boxes_are_filled, boxes_are_sized, boxes_hold_their_lists, natural_boxes_are_unset,
    other_sizes_stay, overfull_boxes_shrink_fully, set_sizes_add_up, set_sizes_grow,
    totals_stay_bounded, vertical_lists_stack,
};

fn sizes_follow()
    ensures stack { VerticalListsStack }
    ensures sized { BoxesAreSized }
    ensures unset { NaturalBoxesAreUnset }
    ensures hold { BoxesHoldTheirLists }
{
    vertical_lists_stack();
    boxes_are_sized();
    natural_boxes_are_unset();
    boxes_hold_their_lists();
}

fn output_follows()
    ensures grow { SetSizesGrow }
    ensures add_up { SetSizesAddUp }
    ensures filled { BoxesAreFilled }
    ensures overfull { OverfullBoxesShrinkFully }
    ensures others { OtherSizesStay }
    ensures bounded { TotalsStayBounded }
{
    set_sizes_grow();
    set_sizes_add_up();
    boxes_are_filled();
    overfull_boxes_shrink_fully();
    other_sizes_stay();
    totals_stay_bounded();
}

#[test]
fn each_law_of_packing_has_a_name_above() {
    sizes_follow();
    output_follows();
}
