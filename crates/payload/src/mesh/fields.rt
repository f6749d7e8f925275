// Fields of a body that are known to be there.
ghost use Rattle.std.specs.Prelude.{◌≡◌, ◌+◌, ◌*◌, ◌≤◌, length};
ghost use Rattle.bits.specs.Field.{field};
ghost use Rattle.payload.specs.Float.{finite_word};
ghost use Rattle.payload.specs.MeshRead.{read_word};
ghost use Rattle.payload.specs.Internal.{word_says};

use bits::{BitCursor, Refusal};

// The 32 bits from byte i on.
pub(in crate::mesh) fn word(s: &[u8], i: usize) -> u32
    requires { (length s.now ≤ 67108864) × (i + 4 ≤ length s.now) }
    ensures { result ≡ field s.now (8 * i) 32 }
{
    bits::word_of(s[i], s[i + 1], s[i + 2], s[i + 3])
}

// Whether the f32 with these bits is finite: bits 30 to 23 are all ones in an infinity and in a NaN alone.
pub(in crate::mesh) fn word_is_finite(word: u32) -> bool
    ensures { result ≡ finite_word word }
{
    (word >> 23) % 256 != 255
}

// The word of a pool that stands at byte i: 3 where it is not there, 17 where it is not finite.
pub(in crate::mesh) fn pool_word(s: &[u8], i: usize) -> Result<u32, Refusal>
    requires { (length s.now ≤ 67108864) × (i ≤ 67108864) }
    ensures { word_says (8 * i) result ≡ read_word s.now (8 * i) }
{
    if s.len() < i + 4 {
        return Err(Refusal::TooFewBytes);
    }
    let fetched = word(s, i);
    if word_is_finite(fetched) {
        return Ok(fetched);
    }
    Err(Refusal::NotFinite)
}

// The field of width bits from a bit on.
pub(in crate::mesh) fn one_field(s: &[u8], bit: usize, width: u32) -> u32
    requires { (length s.now ≤ 67108864) × (width ≤ 32) × (bit + width ≤ 8 * length s.now) }
    ensures { result ≡ field s.now bit width }
{
    let here = BitCursor { bit };
    match here.read(s, width) {
        Ok((value, _)) => value,
        // never: it is there, and no wider than 32 bits
        Err(_) => 0,
    }
}
