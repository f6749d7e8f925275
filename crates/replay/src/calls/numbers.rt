// Calls 0c to 12: numbers and floats.
use super::Call;
use super::floats::float;
use crate::item::Item;
use capi::numbers::{
    capi_bit_width, capi_float_bits, capi_nearest, capi_run_on, capi_scale, capi_stepped,
    capi_zigzag,
};

pub fn unlent(call: &Call) -> i64 {
    let [x, field, limit, ..] = call.args;
    let a = u32::low(x);
    match call.number.value {
        0x0c => capi_zigzag(a),
        0x0e => capi_run_on(a, u32::low(field), u32::low(limit)),
        0x0f => capi_bit_width(a),
        0x10 => capi_nearest(a),
        0x11 => capi_scale(a),
        _ => capi_float_bits(float(x)),
    }
}

pub fn stepped(call: &Call, words: &mut [u64]) -> i64 {
    let [last, field, ..] = call.args;
    capi_stepped(u32::low(last), u32::low(field), words)
}
