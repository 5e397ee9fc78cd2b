//! Laws of packing, each the contract of a function that does nothing.

ghost use Rattle.ntx_pack.specs.Laws.{VerticalListsStack, BoxesAreSized, NaturalBoxesAreUnset, SetSizesGrow, SetSizesAddUp, BoxesAreFilled, OverfullBoxesShrinkFully, OtherSizesStay, TotalsStayBounded, BoxesHoldTheirLists};

/// The law that a vertical list grows as TeX builds it: a box or a rule adds the depth so far and its height to the height
/// and has its own depth then, and glue and kerns add the depth so far and their size and leave no depth.
pub fn vertical_lists_stack()
    ensures { VerticalListsStack }
{}

/// The law that a box of the natural size of its list leaves its glue alone and has badness 0.
pub fn natural_boxes_are_unset()
    ensures { NaturalBoxesAreUnset }
{}

/// The law that in output an item more at the end has its size from the running total before it, and the other sizes stay.
pub fn set_sizes_grow()
    ensures { SetSizesGrow }
{}

/// The law that in output items are together larger by the shortfall, exactly, if some glue makes up for it, their box is
/// not overfull, and the shortfall is within 10^9 scaled points in absolute value.
pub fn set_sizes_add_up()
    ensures { SetSizesAddUp }
{}

/// The law that the items of an hlist in output are together as wide as the box, and those of a vlist as high and deep, if
/// some glue makes up for the shortfall, the box is not overfull, and the shortfall is within 10^9 scaled points in absolute
/// value.
pub fn boxes_are_filled()
    ensures { BoxesAreFilled }
{}

/// The law that in output the items of an overfull box are together smaller by all that its glue can shrink, if that is
/// within 10^9 scaled points in absolute value.
pub fn overfull_boxes_shrink_fully()
    ensures { OverfullBoxesShrinkFully }
{}

/// The law that in output only glue changes its size, and none where the glue of the box is not set.
pub fn other_sizes_stay()
    ensures { OtherSizesStay }
{}

/// The law that a box has the size that was asked for, and its other two sizes from its list.
pub fn boxes_are_sized()
    ensures { BoxesAreSized }
{}

/// The law that running totals over items in range stay within 2^48 in absolute value.
pub fn totals_stay_bounded()
    ensures { TotalsStayBounded }
{}

/// The law that a packed box is as the items of its list are packed, and is over that list, which has the items that it
/// had.
pub fn boxes_hold_their_lists()
    ensures { BoxesHoldTheirLists }
{}
