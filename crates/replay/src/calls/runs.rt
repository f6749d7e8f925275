// Calls 35 to 38: runs of delta fields.
use super::Call;
use crate::item::Item;
use capi::runs::{capi_check_fives, capi_check_run, capi_fill_fives, capi_fill_run};

pub fn check(call: &Call) -> i64 {
    let bit = call.args[0] as usize;
    let limit = u16::low(call.args[1]);
    let count = u32::low(call.args[2]);
    match call.number.value {
        0x35 => capi_check_run(call.data, bit, limit, count),
        _ => capi_check_fives(call.data, bit, limit, count),
    }
}

pub fn fill(call: &Call, out: &mut [u16]) -> i64 {
    let bit = call.args[0] as usize;
    let width = u32::low(call.args[1]);
    match call.number.value {
        0x37 => capi_fill_run(call.data, bit, width, u16::low(call.args[2]), out),
        _ => capi_fill_fives(call.data, bit, width, out),
    }
}
