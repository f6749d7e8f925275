// The calls on numbers and floats.
ghost use Rattle.std.specs.Prelude.{◌≡◌, pos};
ghost use Rattle.bits.specs.Verdict.{accepted};
ghost use Rattle.bits.specs.Number.{meaning, stepped_to, ran_on, width_of};
ghost use Rattle.bits.specs.Float.{nearest, scaled, bits_of};
ghost use Rattle.capi.specs.Answer.{code_of, words_after, one, numbered};

use super::words::Words;
use super::{below, hand_out};

pub fn capi_zigzag(n: u32) -> i64
    ensures { result ≡ meaning n }
{
    bits::zigzag(n) as i64
}

pub fn capi_stepped(last: u32, field: u32, words: &mut [u64]) -> i64
    ensures answer { result ≡ code_of (accepted (one (stepped_to last field))) }
    ensures words { words.new
        ≡ words_after words.old (accepted (one (stepped_to last field))) }
{
    hand_out(words, bits::stepped(last, field).accept())
}

pub fn capi_run_on(last: u32, field: u32, limit: u32) -> i64
    ensures { result ≡ numbered (ran_on limit last field) }
{
    match bits::run_on(last, field, limit) {
        Ok(number) => number as i64,
        Err(refusal) => below(refusal),
    }
}

pub fn capi_bit_width(count: u32) -> i64
    ensures { result ≡ pos (width_of count) }
{
    bits::bit_width(count) as i64
}

pub fn capi_nearest(v: u32) -> i64
    ensures { result ≡ pos (bits_of (nearest v)) }
{
    bits::float_bits(bits::nearest_f32(v)) as i64
}

pub fn capi_scale(v: u32) -> i64
    ensures { result ≡ pos (bits_of (scaled v)) }
{
    bits::float_bits(bits::scale(v)) as i64
}

pub fn capi_float_bits(x: f32) -> i64
    ensures { result ≡ pos (bits_of x) }
{
    bits::float_bits(x) as i64
}
