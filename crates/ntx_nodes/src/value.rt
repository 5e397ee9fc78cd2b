//! Numbers and links in the values that fields take.

ghost use Rattle.std.specs.Prelude.{◌≡◌, ◌≤ℤ◌, pos, nat_abs};
ghost use Rattle.ntx_nodes.specs.Fields.{number_within, number_to, link, dimension, order};

use crate::{FieldValue, Trouble};
use ntx_num::{MAX_DIMENSION, MAX_ORDER, in_range};

/// The number in a value, if it is within `most` in absolute value.
pub(crate) fn number_within(most: i64, v: FieldValue) -> Result<i64, Trouble>
    requires { pos 0 ≤ℤ most }
    ensures { result ≡ number_within (nat_abs most) v }
{
    match v {
        FieldValue::Number(x) if in_range(x, -most, most) => Ok(x),
        _ => Err(Trouble::BadValue),
    }
}

/// The number in a value, if it is from 0 to `last`.
pub(crate) fn number_to(last: u8, v: FieldValue) -> Result<u8, Trouble>
    ensures { result ≡ number_to last v }
{
    match v {
        FieldValue::Number(x) if in_range(x, 0, i64::from(last)) => Ok(x as u8),
        _ => Err(Trouble::BadValue),
    }
}

/// The link in a value.
pub(crate) fn link(v: FieldValue) -> Result<Option<u64>, Trouble>
    ensures { result ≡ link v }
{
    match v {
        FieldValue::Number(_) => Err(Trouble::BadValue),
        FieldValue::Link(to) => Ok(to),
    }
}

/// The number in a value, if it is a dimension.
pub(crate) fn dimension(v: FieldValue) -> Result<i64, Trouble>
    ensures { result ≡ dimension v }
{
    number_within(MAX_DIMENSION, v)
}

/// The number in a value, if it is an order of infinity, from 0 to 3.
pub(crate) fn order(v: FieldValue) -> Result<u8, Trouble>
    ensures { result ≡ order v }
{
    number_to(MAX_ORDER, v)
}
