// The calls of the bit cursor, and a sum of fields.
ghost use Rattle.std.specs.Prelude.{◌≡◌, ◌+◌, ◌*◌, ◌/◌};
ghost use Rattle.bits.specs.Verdict.{accepted, mapped};
ghost use Rattle.bits.specs.Field.{capped};
ghost use Rattle.bits.specs.Read.{field_at, two_at};
ghost use Rattle.bits.specs.Says.{says};
ghost use Rattle.capi.specs.Answer.{code_of, words_after, one, two, three};
ghost use Rattle.capi.specs.Total.{total_of, wrapped};

use super::hand_out;
use super::words::{Words, reply};
use bits::{BitCursor, Refusal};

pub fn capi_bit_new(byte_offset: usize, words: &mut [u64]) -> i64
    ensures answer { result ≡ code_of (accepted (one (capped (8 * byte_offset)))) }
    ensures words { words.new
        ≡ words_after words.old (accepted (one (capped (8 * byte_offset)))) }
{
    hand_out(words, BitCursor::new(byte_offset).bit.accept())
}

pub fn capi_align(bit: usize, words: &mut [u64]) -> i64
    ensures answer { result ≡ code_of (accepted (one (capped (8 * ((bit + 7) / 8))))) }
    ensures words { words.new
        ≡ words_after words.old (accepted (one (capped (8 * ((bit + 7) / 8))))) }
{
    hand_out(words, BitCursor { bit }.align_to_byte().bit.accept())
}

pub fn capi_read(s: &[u8], bit: usize, width: u32, words: &mut [u64]) -> i64
    ensures answer { result ≡ code_of (mapped two (field_at s.now bit width)) }
    ensures words { words.new
        ≡ words_after words.old (mapped two (field_at s.now bit width)) }
{
    hand_out(words, reply(BitCursor { bit }.read(s, width)))
}

pub fn capi_read_two(s: &[u8], bit: usize, width: u32, words: &mut [u64]) -> i64
    ensures answer { result ≡ code_of (mapped three (two_at s.now bit width)) }
    ensures words { words.new
        ≡ words_after words.old (mapped three (two_at s.now bit width)) }
{
    hand_out(words, reply(BitCursor { bit }.read_two(s, width)))
}

// The sum of count fields that stand one after the other from bit 0 on, modulo 2^64.
fn sum_fields(s: &[u8], width: u32, count: u64) -> Result<u64, Refusal>
    ensures { says one result ≡ mapped wrapped (total_of s.now width count) }
{
    // no field is read where the count is 0, and the width is tested all the same
    if 32 < width {
        return Err(Refusal::FieldWidth);
    }
    let mut sum: u64 = 0;
    let mut here = BitCursor { bit: 0 };
    for _ in 0..count {
        let (value, next) = here.read(s, width)?;
        sum = sum.wrapping_add(value as u64);
        here = next;
    }
    Ok(sum)
}

pub fn capi_sum_fields(s: &[u8], width: u32, count: u64, words: &mut [u64]) -> i64
    ensures answer { result ≡ code_of (mapped wrapped (total_of s.now width count)) }
    ensures words { words.new
        ≡ words_after words.old (mapped wrapped (total_of s.now width count)) }
{
    hand_out(words, reply(sum_fields(s, width, count)))
}
