//! What is true of values, tables and stores by their definitions: laws that calls can cite.

ghost use Rattle.std.specs.Prelude.{◌≡◌, ℕ, true, false, Ok};
ghost use Rattle.ntx_values.specs.Value.{is_same};
ghost use Rattle.ntx_values.specs.Table.{Entries, IsBorder, border_of, value_at, written};
ghost use Rattle.ntx_values.specs.declared.value.Value.{Value};

/// Does nothing. Its contract tells that two values are the same exactly where they are equal.
pub fn same_values_are_equal()
    ensures equal { (x y : Value) → is_same x y ≡ true → x ≡ y }
    ensures same { (x : Value) → is_same x x ≡ true }
{}

/// Does nothing. Its contract tells that a table has exactly one border, the one that is computed.
pub fn borders_are_least()
    ensures border { (entries : Entries) → IsBorder entries (border_of entries) }
    ensures only { (entries : Entries) (n : ℕ) → IsBorder entries n → n ≡ border_of entries }
{}

/// Does nothing. Its contract tells that after a set a table holds the value at the key, and at other keys what it held.
pub fn sets_are_read_back()
    ensures set { (before after : Entries) (key v : Value) → written before key v ≡ Ok after → value_at after key ≡ v }
    ensures others { (before after : Entries) (key v other : Value) → written before key v ≡ Ok after → is_same key other ≡ false → value_at after other ≡ value_at before other }
{}
