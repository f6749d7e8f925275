// FNV-1a, 32 bits, over items that are spelled big end first.
ghost use Rattle.std.specs.Prelude.{◌≡◌};
ghost use mathlib.Core.List.{flat_map};
ghost use Rattle.bits.specs.Put.{bytes_of};
ghost use Rattle.replay.specs.Sum.{step, fnv};

use crate::item::Item;

// The sum of no bytes.
pub const EMPTY: u64 = 0x811c_9dc5;

fn add_byte(h: u64, b: u64) -> u64
    ensures { result ≡ step h b }
{
    (h ^ b) % 0x1_0000_0000 * 0x0100_0193 % 0x1_0000_0000
}

// The low bytes of x, so many of them.
fn add_number(h: u64, x: u64, bytes: u32) -> u64
    ensures { result ≡ fnv h (bytes_of bytes x) }
{
    if bytes == 0 {
        return h;
    }
    add_byte(add_number(h, x / 256, bytes - 1), x % 256)
}

pub fn add_items<T: Item>(h: u64, items: &[T]) -> u64
    ensures { result ≡ fnv h (flat_map (λ x. bytes_of T.BYTES (T.value x)) items.now) }
{
    items
        .iter()
        .fold(h, |sum, x| add_number(sum, x.number(), T::BYTES))
}
