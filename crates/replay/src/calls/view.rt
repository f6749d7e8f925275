// Calls 2a to 33: the viewer's small calls.
use super::Call;
use super::floats::float;
use crate::item::Item;
use capi::view::{
    capi_anaglyph_mix, capi_fov_for_zoom, capi_is_panoramic, capi_is_windowed,
    capi_layout_from_raw, capi_pair_from_raw, capi_projection_bounds, capi_projection_from_raw,
    capi_uv_window, capi_zoom_for_fov,
};

pub fn unlent(call: &Call) -> i64 {
    let x = call.args[0];
    let raw = u32::low(x);
    match call.number.value {
        0x2a => capi_layout_from_raw(raw),
        0x2b => capi_is_windowed(raw),
        0x2d => capi_pair_from_raw(raw),
        0x2f => capi_projection_from_raw(raw),
        0x30 => capi_is_panoramic(raw),
        0x32 => capi_fov_for_zoom(float(x)),
        _ => capi_zoom_for_fov(float(x)),
    }
}

pub fn worded(call: &Call, words: &mut [u64]) -> i64 {
    let raw = u32::low(call.args[0]);
    let eye = u32::low(call.args[1]);
    match call.number.value {
        0x2c => capi_uv_window(raw, eye, words),
        0x2e => capi_anaglyph_mix(raw, eye, words),
        _ => capi_projection_bounds(raw, words),
    }
}
