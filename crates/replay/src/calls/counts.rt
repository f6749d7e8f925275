// Calls 26 to 29: counts of vertices and indices.
use super::Call;
use crate::item::Item;
use capi::counts::{
    capi_cubemap_index_count, capi_cubemap_vertex_count, capi_index_count, capi_vertex_count,
};

pub fn worded(call: &Call, words: &mut [u64]) -> i64 {
    let a = u32::low(call.args[0]);
    let b = u32::low(call.args[1]);
    match call.number.value {
        0x26 => capi_vertex_count(a, b, words),
        0x27 => capi_index_count(a, b, words),
        0x28 => capi_cubemap_vertex_count(a, words),
        _ => capi_cubemap_index_count(a, words),
    }
}
