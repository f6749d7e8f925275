// Bit fields, high bit first, read at a cursor by value beside the slice: the Rust's `BitReader`.
mod runs;

ghost use Rattle.std.specs.Prelude.{◌≡◌, ◌+◌, ◌-◌, ◌*◌, ◌/◌, ◌%◌, ◌^◌, ◌<◌, ◌≤◌, length};
ghost use Rattle.bits.specs.Field.{field, capped, room, whole_bytes};
ghost use Rattle.bits.specs.Verdict.{accepted};
ghost use Rattle.bits.specs.Read.{field_at, field_says, two_at, two_read, two_says};
ghost use Rattle.bits.specs.Internal.{Inside, BitsBefore};

use super::bytes::word_of;
use super::refusals::Refusal;
pub use runs::{Run, check_fives, check_run, fill_fives, fill_run};

// A place in a slice, counted in bits from the high bit of byte 0. It may lie past the end.
#[derive(Clone, Copy)]
pub struct BitCursor {
    pub bit: usize,
}

// How many bits of s a cursor can name.
fn bits_in(s: &[u8]) -> usize
    ensures { result ≡ room s.now }
{
    s.len().saturating_mul(8)
}

// How many bits are left from a place on.
fn bits_left(s: &[u8], bit: usize) -> usize
    ensures { result ≡ room s.now - bit }
{
    bits_in(s).saturating_sub(bit)
}

// Five bytes as a number, big end first.
fn five_of(a: u8, b: u8, c: u8, d: u8, e: u8) -> u64
    ensures { result ≡ (a * 2 ^ 24 + b * 2 ^ 16 + c * 2 ^ 8 + d) * 2 ^ 8 + e }
{
    (word_of(a, b, c, d) as u64) * 0x100 + e as u64
}

// A byte as a wider number.
fn wide(x: u8) -> u64
    ensures { (result ≡ x) × (result < 256) }
{
    x as u64
}

// The first n bytes as a number, big end first.
fn first_bytes(s: &[u8], n: usize) -> u64
    requires { (n ≤ 5) × (n ≤ length s.now) }
    ensures { (result ≡ whole_bytes s.now 0 n) × (result ≡ field s.now 0 (8 * n)) }
{
    let mut x: u64 = 0;
    for i in 0..n {
        x = x * 256 + wide(s[i]);
    }
    x
}

// The bits before bit q in the last five bytes that they touch: 33 of them or more.
fn five_before(s: &[u8], q: usize) -> u64
    requires { (33 ≤ q) × (q ≤ 8 * length s.now) }
    ensures { BitsBefore s.now q result }
{
    let last = q - 1;
    let end = last / 8 + 1;
    five_of(s[end - 5], s[end - 4], s[end - 3], s[end - 2], s[end - 1]) >> (7 - last % 8)
}

// The same, or all of them where they touch fewer than five bytes.
fn bits_before(s: &[u8], q: usize) -> u64
    requires { (1 ≤ q) × (q ≤ 8 * length s.now) }
    ensures { BitsBefore s.now q result }
{
    if 32 < q {
        return five_before(s, q);
    }
    let last = q - 1;
    first_bytes(s, last / 8 + 1) >> (7 - last % 8)
}

// The lowest w bits of x.
fn low_bits(x: u64, w: u32) -> u32
    requires { w ≤ 32 }
    ensures { result ≡ x % 2 ^ w }
{
    (x % (1u64 << w)) as u32
}

// Two neighbouring fields.
#[derive(Clone, Copy)]
pub struct Two {
    pub a: u32,
    pub b: u32,
}

// Two neighbouring fields of at most 16 bits, out of the bits before the end of the second.
fn two_of(x: u64, width: u32) -> Two
    requires { width ≤ 16 }
    ensures { (result.a ≡ x / 2 ^ width % 2 ^ width) × (result.b ≡ x % 2 ^ width) }
{
    Two {
        a: low_bits(x >> width, width),
        b: low_bits(x, width),
    }
}

// A field that is known to be there, wherever it stands.
fn one_known(s: &[u8], bit: usize, width: u32) -> u32
    requires { (length s.now ≤ 67108864) × (width ≤ 32) × (bit + width ≤ 8 * length s.now) }
    ensures { result ≡ field s.now bit width }
{
    let here = BitCursor { bit };
    match here.read(s, width) {
        Ok((value, _)) => value,
        // never: it is there, and no wider than 32 bits
        Err(_) => 0,
    }
}

// A field that is known to be there, 33 bits or more from the start.
fn one_inside(s: &[u8], bit: usize, width: u32) -> u32
    requires inside { Inside s.now bit width }
    requires width_bound { width ≤ 32 }
    ensures { result ≡ field s.now bit width }
{
    low_bits(five_before(s, bit + width as usize), width)
}

// Two neighbouring fields that are known to be there, out of one window.
fn two_inside(s: &[u8], bit: usize, width: u32) -> Two
    requires inside { Inside s.now bit (2 * width) }
    requires width_bound { width ≤ 16 }
    ensures { (result.a ≡ field s.now bit width)
        × (result.b ≡ field s.now (bit + width) width) }
{
    two_of(five_before(s, bit + 2 * (width as usize)), width)
}

// Two neighbouring fields, a window for each, and the place after them.
fn two_windows(s: &[u8], bit: usize, width: u32) -> (Two, BitCursor)
    requires { (1 ≤ width) × (width ≤ 32) × (2 * width ≤ room s.now - bit) }
    ensures { accepted (two_read result) ≡ two_at s.now bit width }
{
    let middle = bit + width as usize;
    let next = middle + width as usize;
    let both = Two {
        a: low_bits(bits_before(s, middle), width),
        b: low_bits(bits_before(s, next), width),
    };
    (both, BitCursor { bit: next })
}

impl BitCursor {
    // The place where a byte begins; the largest place where that is larger.
    pub fn new(byte: usize) -> Self
        ensures { result.bit ≡ capped (8 * byte) }
    {
        BitCursor {
            bit: byte.saturating_mul(8),
        }
    }

    // A field of width bits. The width is tested before anything is read.
    pub fn read(self, s: &[u8], width: u32) -> Result<(u32, Self), Refusal>
        ensures { field_says result ≡ field_at s.now self.bit width }
    {
        if 32 < width {
            return Err(Refusal::FieldWidth); // wherever the place is
        }
        let bit = self.bit;
        let size = width as usize;
        if width == 0 {
            return Ok((0, self));
        }
        if bits_left(s, bit) < size {
            return Err(Refusal::TooFewBytes);
        }
        let next = bit + size;
        Ok((
            low_bits(bits_before(s, next), width),
            BitCursor { bit: next },
        ))
    }

    // Two neighbouring fields of width bits each. Up to 16 bits they come out of one window.
    pub fn read_two(self, s: &[u8], width: u32) -> Result<(Two, Self), Refusal>
        ensures { two_says result ≡ two_at s.now self.bit width }
    {
        if 32 < width {
            return Err(Refusal::FieldWidth); // of either field
        }
        let bit = self.bit;
        if width == 0 {
            return Ok((Two { a: 0, b: 0 }, self));
        }
        let size = width as usize;
        if bits_left(s, bit) < 2 * size {
            return Err(Refusal::TooFewBytes);
        }
        if 16 < width {
            return Ok(two_windows(s, bit, width));
        }
        let next = bit + 2 * size;
        Ok((two_of(bits_before(s, next), width), BitCursor { bit: next }))
    }

    // The next place where a byte begins, or the same; the largest place where that is larger.
    pub fn align_to_byte(self) -> Self
        ensures { result.bit ≡ capped (8 * ((self.bit + 7) / 8)) }
    {
        let bit = self.bit;
        if usize::MAX - 7 < bit {
            return BitCursor { bit: usize::MAX };
        }
        BitCursor {
            bit: (bit + 7) / 8 * 8,
        }
    }
}
