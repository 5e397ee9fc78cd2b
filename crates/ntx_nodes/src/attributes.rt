//! The attributes of one node.

ghost use Rattle.std.specs.Prelude.{◌≡◌, ◌&&◌, not, nat_le, IfOk};
ghost use Rattle.std.specs.FinMap as map;
ghost use Rattle.ntx_num.specs.Answer.{Steps};
ghost use Rattle.ntx_num.specs.Answer.{result_map};
ghost use Rattle.ntx_nodes.specs.Heap.{max_attributes, is_attribute};
ghost use Rattle.ntx_nodes.specs.Steps.{with_attribute};

use crate::Trouble;
use ntx_num::{Fail, NoMemory, in_range};
use std::alloc::Global;
use std::collections::BTreeMap;
use std::marker::Model;

/// The most attributes that one node may have.
const MAX_ATTRIBUTES: usize = 64;

/// The last id of an attribute.
const LAST_ATTRIBUTE_ID: i64 = 65535;

/// The least value of an attribute.
const LEAST_ATTRIBUTE_VALUE: i64 = -2147483646;

/// The greatest value of an attribute.
const GREATEST_ATTRIBUTE_VALUE: i64 = 2147483647;

/// Whether an attribute may have this id and this value: the id is from 0 to 65535, and the value from -2147483646 to
/// 2147483647.
pub fn is_attribute(id: i64, v: i64) -> bool
    ensures { result ≡ is_attribute id v }
{
    in_range(id, 0, LAST_ATTRIBUTE_ID)
        && in_range(v, LEAST_ATTRIBUTE_VALUE, GREATEST_ATTRIBUTE_VALUE)
}

/// From attributes' ids to their values. It is seen as a finite map.
#[derive(Drop)]
pub struct Attributes {
    values: BTreeMap<i64, i64>,
}

impl Model for Attributes {
    ghost use Rattle.std.specs.Prelude.{ℤ};
    ghost use Rattle.std.specs.Ordering.{int_cmp};
    ghost use Rattle.std.specs.FinMap as map;
    ghost use Rattle.std.specs.Coded.{coded_ℤ};

    ghost Value = { map.FinMap int_cmp ℤ };

    ghost coded = { map.code coded_ℤ coded_ℤ };

    ghost view = { λ a. map.from_entries a.values.entries };
}

impl Attributes {
    /// No attributes.
    pub fn new(alloc: Global) -> Self
        ensures { result ≡ map.empty }
    {
        Attributes {
            values: BTreeMap::new(alloc),
        }
    }

    /// The value at an id, where there is one.
    pub fn get(&self, id: i64) -> Option<i64>
        ensures { result ≡ map.get self.now id }
    {
        self.values.get(&id).copied()
    }

    /// Whether an attribute with this id would be one more than may be.
    fn is_full_for(&self, id: i64) -> bool
        ensures { result ≡ (not (map.contains_key self.now id) && nat_le max_attributes (map.len self.now)) }
    {
        !self.values.contains_key(&id) && self.values.len() >= MAX_ATTRIBUTES
    }

    /// Sets the value at an id. Refuses with BadValue where `is_attribute` does not hold of them, and then with AttrFull
    /// where it would be the 65th. After each, and where memory runs out, nothing has changed.
    pub fn set(&mut self, id: i64, v: i64) -> Result<(), Fail<Trouble>>
        ensures { Steps result self.old self.new (result_map (λ a. (tt, a)) (with_attribute self.old id v)) }
    {
        if !is_attribute(id, v) {
            return Err(Fail::Is(Trouble::BadValue));
        }
        if self.is_full_for(id) {
            return Err(Fail::Is(Trouble::AttrFull));
        }
        self.values.insert(id, v)?;
        Ok(())
    }

    /// Takes the value at an id away, where there is one.
    pub fn unset(&mut self, id: i64)
        ensures { self.new ≡ map.remove self.old id }
    {
        let _before = self.values.remove(&id);
    }

    /// The same attributes once more.
    pub fn copy(&self) -> Result<Attributes, NoMemory>
        ensures { IfOk result (λ copied. copied ≡ self.now) }
    {
        Ok(Attributes {
            values: self.values.clone()?,
        })
    }
}
