//! What tables hold at numbers.

ghost use Rattle.std.specs.Prelude.{◌≡◌, ◌<◌, ◌≤◌, ◌^◌, pos};
ghost use Rattle.ntx_num.specs.Answer.{Steps};
ghost use Rattle.ntx_values.specs.Table.{item_at, border_of};
ghost use Rattle.ntx_values.specs.State.{IsOf, Grows, table_of};
ghost use Rattle.ntx_values.specs.Steps.{set_step};

use ntx_num::Fail;
use ntx_values::{LuaWhy, Store, TableId, Value};

/// What a table holds at a number.
pub(crate) fn item(store: &Store, table: TableId, n: usize) -> Value
    requires table { IsOf store.now (Value.Table table) }
    requires small { n < 2 ^ 63 }
    ensures value { result ≡ item_at (table_of store.now table) n }
    ensures of { IsOf store.now result }
{
    store.get(table, Value::Int(n as i64))
}

/// Sets a table at a number.
///
/// # Refusals
///
/// TablesFull if the table would hold a 65537th key.
pub(crate) fn set_item(
    store: &mut Store,
    table: TableId,
    n: usize,
    value: Value,
) -> Result<(), Fail<LuaWhy>>
    requires table { IsOf store.old (Value.Table table) }
    requires value { IsOf store.old value }
    requires small { n < 2 ^ 63 }
    ensures step { Steps result store.old store.new (set_step table (Value.Int (pos n)) value store.old) }
    ensures grows { Grows store.old store.new }
{
    store.set(table, Value::Int(n as i64), value)
}

/// The border of a table.
pub(crate) fn border(store: &Store, table: TableId) -> usize
    requires { IsOf store.now (Value.Table table) }
    ensures value { result ≡ border_of (table_of store.now table) }
    ensures small { result ≤ 2 ^ 16 }
{
    store.lawful();
    store.border(table) as usize
}
