//! Tables and texts of scripts.

ghost use Rattle.ntx_values.specs.declared.value.Value.TheVariants as value;
ghost use Rattle.ntx_values.specs.State.{IsOf};

use crate::fault::Fault;
use ntx_num::Fail;
use ntx_values::{LuaWhy, Store, TableId, Value};
use std::alloc::Global;

/// Sets a table at a number.
fn set(store: &mut Store, t: TableId, i: i64) -> Result<(), Fail<LuaWhy>>
    requires { IsOf store.old (value.Table t) }
    ensures { IsOf store.new (value.Table t) }
{
    store.set(t, Value::Int(i), Value::Int(i))
}

/// Sets a table at the keys 1 to `n`, and reads it at each.
pub fn set_and_get(alloc: Global, n: u64) -> Result<(), Fault> {
    let mut store = Store::new(alloc)?;
    let t = store.new_table()?;
    for i in 0..n.min(1 << 16) as i64 {
        set(&mut store, t, i + 1)?;
    }
    for i in 0..n.min(1 << 16) as i64 {
        let _value = store.get(t, Value::Int(i + 1));
    }
    Ok(())
}

/// Makes `n` different texts of ten digits, and finds each.
pub fn make_and_find(alloc: Global, n: u64) -> Result<(), Fault> {
    let mut store = Store::new(alloc)?;
    for i in 0..n {
        let digits = format!(in alloc; "{i:010}")?;
        store.text(digits.as_bytes())?;
    }
    for i in 0..n {
        let digits = format!(in alloc; "{i:010}")?;
        if store.find_text(digits.as_bytes()).is_none() {
            return Err(Fault::Refused);
        }
    }
    Ok(())
}
