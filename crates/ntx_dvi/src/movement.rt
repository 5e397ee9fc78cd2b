//! Movements of the place on the page, in as few bytes as they need.

ghost use Rattle.std.specs.Prelude.{◌≡◌, ◌≤◌, ◌<◌, pos, IsOk};
ghost use Rattle.std.specs.Int.{w32, cast_unsigned};
ghost use Rattle.byteorder.specs.Endian.{big_bytes};
ghost use Rattle.ntx_num.specs.Answer.{Steps};
ghost use Rattle.ntx_dvi.specs.Output.{append_step};
ghost use Rattle.ntx_dvi.specs.Bytes.{movement_bytes};

use crate::full::DviFull;
use crate::output::Output;
use byteorder::{BigEndian, ByteOrder};
use ntx_num::Fail;

/// A number in two's complement.
fn big_endian(number: i32) -> [u8; 4]
    ensures { result ≡ big_bytes 4 (cast_unsigned w32 number) }
{
    let mut bytes = [0; 4];
    BigEndian::write_i32(&mut bytes, number);
    bytes
}

/// Appends a movement by this distance, or nothing if it is 0. `code` is the one before that of a movement of one byte.
pub fn append_movement(output: &mut Output, code: u8, distance: i32) -> Result<(), Fail<DviFull>>
    requires code_fits { code < 252 }
    requires was_within { output.old.place ≤ output.old.limit }
    ensures nothing { distance ≡ pos 0 → IsOk result }
    ensures steps { Steps result output.old output.new (append_step (movement_bytes code distance) output.old) }
    ensures within { output.new.place ≤ output.new.limit }
    ensures grows { output.old.place ≤ output.new.place }
    ensures limit_stays { output.new.limit ≡ output.old.limit }
{
    let [first, second, third, fourth] = big_endian(distance);
    match distance {
        0 => Ok(()),
        -0x80..=0x7f => output.append(&[code + 1, fourth]),
        -0x8000..=0x7fff => output.append(&[code + 2, third, fourth]),
        -0x80_0000..=0x7f_ffff => output.append(&[code + 3, second, third, fourth]),
        _ => output.append(&[code + 4, first, second, third, fourth]),
    }
}
