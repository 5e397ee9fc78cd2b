//! Tests of ranges.

ghost use Rattle.std.specs.Prelude.{◌≤ℤ◌, ◌↔◌, IsTrue};

/// Whether `v` lies between `low` and `high`, both included.
pub fn in_range(v: i64, low: i64, high: i64) -> bool
    ensures { IsTrue result ↔ ((low ≤ℤ v) × (v ≤ℤ high)) }
{
    low <= v && v <= high
}
