// A word, and a field, put into a lent buffer.
ghost use Rattle.std.specs.Prelude.{◌≡◌, ◌+◌, ◌-◌, ◌*◌, ◌/◌, ◌%◌, ◌^◌, ◌<◌, ◌≤◌, length};
ghost use Rattle.std.proofs.lemmas.List.Edits.{sets};
ghost use Rattle.bits.specs.Put.{bytes_of, word_put, word_put_answer, field_put, field_put_answer, put_says};

use super::refusals::{FillError, Refusal};

// Puts a word at byte at, big end first.
pub fn put_word(out: &mut [u8], at: usize, x: u32) -> Result<(), FillError<usize>>
    ensures result_value { put_says result ≡ word_put_answer out.old at }
    ensures out_after { out.new ≡ word_put out.old at x }
{
    if usize::MAX - 4 < at {
        return Err(FillError::Needs(usize::MAX));
    }
    if out.len() < at + 4 {
        return Err(FillError::Needs(at + 4));
    }
    out[at] = (x / 0x100_0000) as u8;
    out[at + 1] = (x / 0x1_0000 % 0x100) as u8;
    out[at + 2] = (x / 0x100 % 0x100) as u8;
    out[at + 3] = (x % 0x100) as u8;
    Ok(())
}

// The n low bytes of x at byte at, big end first.
fn put_bytes(out: &mut [u8], at: usize, n: usize, x: u64)
    requires { (n ≤ 8) × (x < 2 ^ (8 * n)) × (at + n ≤ length out.old) }
    ensures { out.new ≡ sets out.old at (bytes_of n x) }
{
    for i in 0..n {
        out[at + i] = ((x >> (8 * (n - 1 - i))) % 256) as u8;
    }
}

// The bytes that a field touches, as a number: the first off bits of the first byte, the low bits of value, and zeros.
fn joined_of(first: u8, off: usize, width: usize, value: u32) -> u64
    requires { (off < 8) × (width ≤ 32) }
    ensures { result ≡ (first / 2 ^ (8 - off) * 2 ^ width + value % 2 ^ width) * 2 ^ (8 *
        ((off + width + 7) / 8) - off - width) }
{
    let kept = (first as u64) >> (8 - off);
    let low = value as u64 % (1u64 << width);
    ((kept << width) + low) << ((off + width + 7) / 8 * 8 - off - width)
}

// Puts the width low bits of value at a bit, where the width is at most 32. The bits before it stay, those after it in
// its last byte become 0.
pub fn put_field(out: &mut [u8], bit: usize, width: u32, value: u32) -> Result<(), FillError<usize>>
    ensures result_value { put_says result ≡ field_put_answer out.old bit width }
    ensures out_after { out.new ≡ field_put out.old bit width value }
{
    if 32 < width {
        return Err(FillError::Refused(Refusal::FieldWidth));
    }
    let at = bit / 8;
    let off = bit % 8;
    let wide = width as usize;
    let n = (off + wide + 7) / 8;
    if out.len() < at + n {
        return Err(FillError::Needs(at + n));
    }
    if n == 0 {
        return Ok(());
    }
    let x = joined_of(out[at], off, wide, value);
    put_bytes(out, at, n, x);
    Ok(())
}
