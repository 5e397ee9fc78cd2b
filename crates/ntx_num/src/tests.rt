use super::*;

#[test]
fn badness_of_small_large_and_no_glue(rt: HostRuntime) {
    assert_eq!(rt; badness(0, 0), 0);
    assert_eq!(rt; badness(1, 0), 10_000);
    assert_eq!(rt; badness(1, -1), 10_000);
    assert_eq!(rt; badness(1, 1), 100);
    assert_eq!(rt; badness(1, 2), 12);
    assert_eq!(rt; badness(7_230_585, 1_663_496), 10_000);
    assert_eq!(rt; badness(7_230_585, 1_663_497), 8_189);
    badness_grows();
}

#[test]
fn ratios_round_halves_away_from_zero(rt: HostRuntime) {
    assert_eq!(rt; round_ratio(1, 2, 1), 1);
    assert_eq!(rt; round_ratio(1, 2, -1), -1);
    assert_eq!(rt; round_ratio(100, 3, 1), 33);
    assert_eq!(rt; round_ratio(100, 3, 2), 67);
    assert_eq!(rt; round_ratio(-5, 2, 0), 0);
    assert_eq!(rt;
        round_ratio(4_294_967_296, 1, -281_474_976_710_656),
        -1_000_000_000
    );
    round_ratio_is_odd();
}

#[test]
fn demerits_add_squares(rt: HostRuntime) {
    assert_eq!(rt; demerits(10, 0, 0), 100);
    assert_eq!(rt; demerits(10, 0, 50), 2_600);
    assert_eq!(rt; demerits(10, 0, -50), -2_400);
    assert_eq!(rt; demerits(10, 100, -10_000), 12_100);
    assert_eq!(rt; demerits(-10, 10_000, 0), 99_800_100);
    assert_eq!(rt; demerits(0, 10_000, 0), 100_000_000);
}

#[test]
fn a_range_has_both_its_ends(rt: HostRuntime) {
    assert!(rt; is_dimension(1_073_741_823) && is_dimension(-1_073_741_823));
    assert!(rt; !is_dimension(1_073_741_824) && !is_dimension(-1_073_741_824));
    assert!(rt; in_range(1, 1, 2));
    assert!(rt; in_range(2, 1, 2));
    assert!(rt; !in_range(3, 1, 2));
    assert!(rt; !in_range(0, 1, 2));
}
