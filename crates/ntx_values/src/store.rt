//! The store of a script's texts, tables and function numbers.

ghost use Rattle.std.specs.Prelude.{◌≡◌, ◌-◌, ◌^◌, pos, Ok, OnOk, IfOk, OnErr, IfSome};
ghost use Rattle.ntx_num.specs.Answer.{Steps};
ghost use Rattle.ntx_values.specs.Table.{value_at, border_of, next_of};
ghost use Rattle.ntx_values.specs.State.{bytes_of, table_of, IsOf, Grows, IsLawful};
ghost use Rattle.ntx_values.specs.Steps.{empty_store, found_text, text_step, new_table_step, new_function_step, set_step};

use crate::table::Table;
use crate::texts::Texts;
use crate::{BadKey, FuncId, LuaWhy, TableId, TextId, Value};
use ntx_num::{Fail, NoMemory};
use std::alloc::Global;
use std::marker::Model;

/// The most tables of one store.
const MAX_TABLES: usize = 1 << 16;

/// The texts, tables and function numbers of one run of a script. Nothing in it is ever given up: there is no collector.
///
/// It is seen as a `StoreState`. A number or a value that is given to a call has to be of this store. A refusal changes
/// nothing, and neither does running out of memory.
#[derive(Drop)]
pub struct Store {
    alloc: Global,
    texts: Texts,
    tables: Vec<Table>,
    functions: u64,
}

impl Model for Store {
    ghost use Rattle.ntx_values.specs.State.{StoreState, IsLawful};

    ghost Value = { StoreState };

    ghost view = { λ a. record { texts = a.texts; tables = a.tables.items; functions = a.functions } };

    ghost invariant = { λ a. IsLawful (record { texts = a.texts; tables = a.tables.items; functions = a.functions }) };
}

impl Store {
    /// A store with no text, no table and no function.
    pub fn new(alloc: Global) -> Result<Store, NoMemory>
        ensures { result ≡ Ok empty_store }
    {
        Ok(Store {
            alloc,
            texts: Texts::new(alloc),
            tables: Vec::new(alloc),
            functions: 0,
        })
    }

    /// Does nothing. Its contract tells what is true of every store.
    pub fn lawful(&self)
        ensures { IsLawful self.now }
    {
        let _ = &self.functions;
    }

    /// The text with these bytes: its number where it was made before, else a new one, which counts toward 2^24 bytes.
    ///
    /// # Refusals
    ///
    /// TextsFull where a new text has more than 2^20 bytes, or all texts together would have more than 2^24.
    pub fn text(&mut self, bytes: &[u8]) -> Result<TextId, Fail<LuaWhy>>
        ensures step { Steps result self.old self.new (text_step bytes.now self.old) }
        ensures grows { Grows self.old self.new }
        ensures of { IfOk result (λ t. IsOf self.new (Value.Text t)) }
        ensures bytes { IfOk result (λ t. bytes_of self.new t ≡ bytes.now) }
    {
        let number = self.texts.make(self.alloc, bytes)?;
        Ok(TextId { number })
    }

    /// The bytes of a text.
    pub fn bytes_of(&self, t: TextId) -> &[u8]
        requires { IsOf self.now (Value.Text t) }
        ensures { result.now ≡ bytes_of self.now t }
    {
        self.texts.at(t.number)
    }

    /// The text with these bytes, where it was made.
    pub fn find_text(&self, bytes: &[u8]) -> Option<TextId>
        ensures value { result ≡ found_text bytes.now self.now }
        ensures of { IfSome result (λ t. IsOf self.now (Value.Text t)) }
        ensures bytes { IfSome result (λ t. bytes_of self.now t ≡ bytes.now) }
    {
        let number = self.texts.find(bytes)?;
        Some(TextId { number })
    }

    /// A new table, which is empty.
    ///
    /// # Refusals
    ///
    /// TablesFull where it would be the 65537th.
    pub fn new_table(&mut self) -> Result<TableId, Fail<LuaWhy>>
        ensures step { Steps result self.old self.new (new_table_step self.old) }
        ensures grows { Grows self.old self.new }
        ensures of { IfOk result (λ t. IsOf self.new (Value.Table t)) }
    {
        let number = self.tables.len();
        if number >= MAX_TABLES {
            return Err(Fail::Is(LuaWhy::TablesFull));
        }
        self.tables.push(Table::new(self.alloc))?;
        Ok(TableId { number })
    }

    /// A number for a new function. No two calls give the same. It takes no memory, and says that memory ran out only
    /// after all numbers of 64 bits but the last were given.
    pub fn new_function(&mut self) -> Result<FuncId, NoMemory>
        ensures made { IfOk result (λ f. (f, self.new) ≡ new_function_step self.old) }
        ensures err { OnErr result (self.new ≡ self.old) }
        ensures last { OnErr result (self.old.functions ≡ 2 ^ 64 - 1) }
        ensures grows { Grows self.old self.new }
        ensures of { IfOk result (λ f. IsOf self.new (Value.Function f)) }
    {
        let number = self.functions;
        self.functions = number.checked_add(1).ok_or(NoMemory)?;
        Ok(FuncId { number })
    }

    /// What a table holds at a key, nil where nothing.
    pub fn get(&self, t: TableId, key: Value) -> Value
        requires { IsOf self.now (Value.Table t) }
        ensures value { result ≡ value_at (table_of self.now t) key }
        ensures of { IsOf self.now result }
    {
        self.tables[t.number].get(key)
    }

    /// The least n with nothing at n + 1, at most 65536.
    pub fn border(&self, t: TableId) -> i64
        requires { IsOf self.now (Value.Table t) }
        ensures { result ≡ pos (border_of (table_of self.now t)) }
    {
        self.tables[t.number].border() as i64
    }

    /// Sets a table at a key. A key that is there keeps its place, also where it is set to nil. A new one goes last. Nil at
    /// a key that was never there changes nothing.
    ///
    /// # Refusals
    ///
    /// NilKey where the key is nil. TablesFull where the table would hold a 65537th key, those that hold nil counted.
    pub fn set(&mut self, t: TableId, key: Value, v: Value) -> Result<(), Fail<LuaWhy>>
        requires table { IsOf self.old (Value.Table t) }
        requires key { IsOf self.old key }
        requires value { IsOf self.old v }
        ensures step { Steps result self.old self.new (set_step t key v self.old) }
        ensures grows { Grows self.old self.new }
    {
        let table = &mut self.tables[t.number];
        table.set(key, v)
    }

    /// The first pair after a key, in order of first insertion, that holds a value other than nil, and from nil the first
    /// of all. None where no such pair is left.
    ///
    /// # Refusals
    ///
    /// BadKey where the key is neither nil nor was ever held.
    pub fn next(&self, t: TableId, key: Value) -> Result<Option<(Value, Value)>, BadKey>
        requires { IsOf self.now (Value.Table t) }
        ensures value { result ≡ next_of (table_of self.now t) key }
        ensures of { IfOk result (λ found. IfSome found (λ e. IsOf self.now e.0 × IsOf self.now e.1)) }
    {
        self.tables[t.number].next(key)
    }
}
