// Calls 01 to 07, 0b and 39: the byte cursor, box headers, and four bytes as a word.
use super::Call;
use crate::item::Item;
use capi::bytes::{
    capi_byte_new, capi_header, capi_position, capi_remaining, capi_seek, capi_skip, capi_u8,
    capi_u32, capi_word_of,
};

pub fn worded(call: &Call, words: &mut [u64]) -> i64 {
    let s = call.data;
    let at = call.args[0] as usize;
    let to = call.args[1] as usize;
    match call.number.value {
        0x01 => capi_byte_new(words),
        0x02 => capi_position(at, words),
        0x03 => capi_remaining(s, at, words),
        0x04 => capi_seek(s, at, to, words),
        0x05 => capi_skip(s, at, to, words),
        0x06 => capi_u8(s, at, words),
        0x07 => capi_u32(s, at, words),
        _ => capi_header(s, at, words),
    }
}

pub fn word_of(call: &Call) -> i64 {
    let [a, b, c, d, ..] = call.args;
    capi_word_of(u8::low(a), u8::low(b), u8::low(c), u8::low(d))
}
