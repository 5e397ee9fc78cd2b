//! Numbers in their ranges.

ghost use Rattle.std.specs.Prelude.{◌≡◌};
ghost use Rattle.ntx_doc.specs.Numbers as numbers;

use crate::fault::DocWhy;
use crate::text::number;
use ntx_num::{MAX_DIMENSION, in_range};

/// The number that a field writes, from `low` to `high`.
pub fn number_in(field: &[u8], low: i64, high: i64) -> Result<i64, DocWhy>
    ensures { result ≡ numbers.number_in (record { low = low; high = high }) field.now }
{
    match number(field) {
        None => Err(DocWhy::Number),
        Some(value) => {
            if in_range(value, low, high) {
                Ok(value)
            } else {
                Err(DocWhy::Range)
            }
        }
    }
}

/// The number that a field writes, from 0 to `most`.
pub fn natural_in(field: &[u8], most: u8) -> Result<u8, DocWhy>
    ensures { result ≡ numbers.natural_in most field.now }
{
    let value = number_in(field, 0, i64::from(most))?;
    Ok(value as u8)
}

/// The dimension that a field writes, in scaled points.
pub fn dimension_in(field: &[u8]) -> Result<i64, DocWhy>
    ensures { result ≡ numbers.dimension_in field.now }
{
    number_in(field, -MAX_DIMENSION, MAX_DIMENSION)
}
