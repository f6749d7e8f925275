// Calls 1a to 1f, 3b and 3c: the sphere's grid and the cube map.
use super::Call;
use super::floats::float;
use crate::item::Item;
use capi::grids::{
    capi_cubemap_indices, capi_cubemap_lengths, capi_cubemap_mesh, capi_padding_share,
    capi_sphere_indices, capi_sphere_indices_bounded, capi_sphere_lengths, capi_sphere_uvs,
};

pub fn indices(call: &Call, out: &mut [u16], words: &mut [u64]) -> i64 {
    let [rings, sectors, top, bottom, left, right, ..] = call.args;
    let a = u32::low(rings);
    match call.number.value {
        0x1a => capi_sphere_indices(a, u32::low(sectors), out, words),
        0x1b => capi_sphere_indices_bounded(
            a,
            u32::low(sectors),
            float(top),
            float(bottom),
            float(left),
            float(right),
            out,
            words,
        ),
        _ => capi_cubemap_indices(a, out, words),
    }
}

pub fn floats(call: &Call, out: &mut [u32], words: &mut [u64]) -> i64 {
    let [a, b, c, ..] = call.args;
    match call.number.value {
        0x1c => capi_sphere_uvs(u32::low(a), u32::low(b), out, words),
        _ => capi_cubemap_mesh(u32::low(a), float(b), float(c), out, words),
    }
}

pub fn lengths(call: &Call, words: &mut [u64]) -> i64 {
    let [a, b, c, bottom, left, right, ..] = call.args;
    match call.number.value {
        0x3b => capi_sphere_lengths(
            u32::low(a),
            u32::low(b),
            float(c),
            float(bottom),
            float(left),
            float(right),
            words,
        ),
        _ => capi_cubemap_lengths(u32::low(a), float(b), float(c), words),
    }
}

pub fn padding_share(call: &Call) -> i64 {
    let [padding, face, ..] = call.args;
    capi_padding_share(u32::low(padding), u32::low(face))
}
