//! Calls of the library.

ghost use Rattle.std.specs.Prelude.{IfOk};
ghost use Rattle.ntx_num.specs.Answer.{result_map};
ghost use Rattle.ntx_values.specs.State.{AreOf, Grows};
ghost use Rattle.ntx_lualib.specs.Library.{called, Calls};

use crate::lists::{table_insert, table_remove};
use crate::numbers::{math_abs, math_max, math_min};
use crate::print::print;
use crate::printed::Printed;
use crate::strings::{string_byte, string_len};
use crate::texts::{
    give_char, give_concat, give_format, give_rep, give_shown, give_sub, give_type,
};
use crate::walks::{ipairs, ipairs_next, next, pairs};
use ntx_num::Fail;
use ntx_values::{LibFn, LuaWhy, Store, Value};
use std::alloc::Global;

/// Calls a function of the library, which gives its values. Missing arguments are nil, and those beyond the last that a function
/// names are dropped.
///
/// Every argument has to be of this store. After the call each text, table and function of the store is still one, and each text
/// keeps its bytes.
///
/// # Refusals
///
/// BadArgument if an argument, an element of `table.concat` or a `%` of `string.format` is not one that the function takes; the
/// first from the left decides. After that, TextsFull if the text that is the value is new and has more than 2^20 bytes, or all
/// texts would have more than 2^24; TablesFull if `table.insert` would make a 65537th key of the table; PrintFull if `print`
/// would pass 2^24 bytes in all. A refusal changes nothing. If memory runs out, nothing more was printed, but what tables hold may
/// have changed.
pub fn call_lib(
    alloc: Global,
    store: &mut Store,
    out: &mut Printed,
    f: LibFn,
    args: &[Value],
) -> Result<Vec<Value>, Fail<LuaWhy>>
    requires { AreOf store.old args.now }
    ensures calls { Calls (result_map (λ values. values.items) result) (store.old, out.old) (store.new, out.new) (called f args.now (store.old, out.old)) }
    ensures grows { Grows store.old store.new }
    ensures of { IfOk result (λ values. AreOf store.new values.items) }
{
    match f {
        LibFn::Print => print(alloc, store, out, args),
        LibFn::ToString => give_shown(alloc, store, args),
        LibFn::TypeOf => give_type(alloc, store, args),
        LibFn::Pairs => pairs(alloc, args),
        LibFn::Ipairs => ipairs(alloc, args),
        LibFn::IpairsNext => ipairs_next(alloc, store, args),
        LibFn::Next => next(alloc, store, args),
        LibFn::StringLen => string_len(alloc, store, args),
        LibFn::StringSub => give_sub(alloc, store, args),
        LibFn::StringByte => string_byte(alloc, store, args),
        LibFn::StringChar => give_char(alloc, store, args),
        LibFn::StringRep => give_rep(alloc, store, args),
        LibFn::StringFormat => give_format(alloc, store, args),
        LibFn::TableInsert => table_insert(alloc, store, args),
        LibFn::TableRemove => table_remove(alloc, store, args),
        LibFn::TableConcat => give_concat(alloc, store, args),
        LibFn::MathAbs => math_abs(alloc, args),
        LibFn::MathMax => math_max(alloc, args),
        LibFn::MathMin => math_min(alloc, args),
    }
}
