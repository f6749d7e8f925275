// Calls 08 to 0a and 34: the bit cursor.
use super::Call;
use crate::item::Item;
use capi::fields::{capi_align, capi_bit_new, capi_read, capi_read_two};

pub fn worded(call: &Call, words: &mut [u64]) -> i64 {
    let at = call.args[0] as usize;
    let width = u32::low(call.args[1]);
    match call.number.value {
        0x08 => capi_bit_new(at, words),
        0x09 => capi_align(at, words),
        0x0a => capi_read(call.data, at, width, words),
        _ => capi_read_two(call.data, at, width, words),
    }
}
