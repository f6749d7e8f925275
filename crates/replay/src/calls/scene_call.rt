// Call 25: the scene.
use super::Call;
use super::floats::float;
use crate::item::Item;
use capi::scene_call::capi_scene;

pub fn scene(
    call: &Call,
    numbers: &mut [u16],
    floats: &mut [u32],
    records: &mut [u32],
    words: &mut [u64],
) -> i64 {
    let [kind, rings, sectors, cells, radius, face_width, ..] = call.args;
    capi_scene(
        u32::low(kind),
        call.data,
        u32::low(rings),
        u32::low(sectors),
        u32::low(cells),
        float(radius),
        u32::low(face_width),
        numbers,
        floats,
        records,
        words,
    )
}
