// Calls 15 to 19 and 3d: crops, and equi and cbmp payloads.
use super::Call;
use super::floats::float;
use crate::item::Item;
use capi::crops::{
    capi_equi_crop, capi_is_usable, capi_parse_cbmp, capi_parse_equi, capi_write_cbmp,
    capi_write_equi,
};

pub fn is_usable(call: &Call) -> i64 {
    let [top, bottom, left, right, ..] = call.args;
    capi_is_usable(float(top), float(bottom), float(left), float(right))
}

pub fn equi_crop(call: &Call, words: &mut [u64]) -> i64 {
    let [t, b, l, r, ..] = call.args;
    capi_equi_crop(u32::low(t), u32::low(b), u32::low(l), u32::low(r), words)
}

pub fn parse(call: &Call, words: &mut [u64]) -> i64 {
    match call.number.value {
        0x16 => capi_parse_equi(call.data, words),
        _ => capi_parse_cbmp(call.data, words),
    }
}

pub fn write(call: &Call, out: &mut [u8], words: &mut [u64]) -> i64 {
    let [t, b, l, r, ..] = call.args;
    match call.number.value {
        0x17 => capi_write_equi(
            u32::low(t),
            u32::low(b),
            u32::low(l),
            u32::low(r),
            out,
            words,
        ),
        _ => capi_write_cbmp(u32::low(t), out, words),
    }
}
