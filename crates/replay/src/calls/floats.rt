// Floats as arguments.
use crate::item::Item;

// The float of a bit pattern. Every NaN's pattern stands for the one NaN.
pub fn float(x: u64) -> f32 {
    let bits = u32::low(x);
    if 0x7f80_0000 < bits % 0x8000_0000 {
        return f32::NAN;
    }
    f32::from_bits(bits)
}
