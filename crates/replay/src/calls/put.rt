// Calls 13 and 14: writing words and fields.
use super::Call;
use crate::item::Item;
use capi::put::{capi_put_field, capi_put_word};

pub fn write(call: &Call, out: &mut [u8], words: &mut [u64]) -> i64 {
    let [_, at, x, value, ..] = call.args;
    match call.number.value {
        0x13 => capi_put_word(out, at as usize, u32::low(x), words),
        _ => capi_put_field(out, at as usize, u32::low(x), u32::low(value), words),
    }
}
