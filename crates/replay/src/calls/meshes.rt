// Calls 20, 23, 24 and 3a: mesh lists and mesh bodies.
use super::unpack::Items;
use super::{Answer, Call, WORDS, within};
use crate::item::Item;
use capi::meshes::{capi_measure_mesh, capi_measure_meshes, capi_parse_mesh, capi_write_mesh};

pub fn measure(call: &Call, words: &mut [u64]) -> i64 {
    match call.number.value {
        0x20 => capi_measure_meshes(call.data, words),
        _ => capi_measure_mesh(call.data, words),
    }
}

// Calls 23 and 24 are lent the four tables of a mesh body, and the second bytes to write to. The arguments are their
// lengths: call 23 has no fifth one, which is 0 then. The data of call 24 is the four tables.
pub fn body(call: &Call) -> Option<Answer> {
    let [
        pool_length,
        coordinate_length,
        submesh_length,
        point_length,
        out_length,
        ..
    ] = call.args;
    let p = within(pool_length, 512)?;
    let c = within(coordinate_length, 2048)?;
    let k = within(submesh_length, 512)?;
    let n = within(point_length, 2048)?;
    let b = within(out_length, 1024)?;
    let mut words = WORDS;
    let mut pool_room = [u32::LENT; 512];
    let mut coordinate_room = [u16::LENT; 2048];
    let mut submesh_room = [u32::LENT; 512];
    let mut point_room = [u16::LENT; 2048];
    let mut room = [u8::LENT; 1024];
    let pool = &mut pool_room[..p];
    let coordinates = &mut coordinate_room[..c];
    let submeshes = &mut submesh_room[..k];
    let points = &mut point_room[..n];
    let out = &mut room[..b];
    if call.number.value == 0x23 {
        let code = capi_parse_mesh(call.data, pool, coordinates, submeshes, points, &mut words);
        let answer = Answer::new(code).with(&words).with(pool);
        return Some(answer.with(coordinates).with(submeshes).with(points));
    }
    let length = 4 * (pool.len() + submeshes.len()) + 2 * (coordinates.len() + points.len());
    if length != call.data.len() {
        return None;
    }
    let mut items = Items::of(call.data);
    items.fill(pool);
    items.fill(coordinates);
    items.fill(submeshes);
    items.fill(points);
    let code = capi_write_mesh(pool, coordinates, submeshes, points, out, &mut words);
    Some(Answer::new(code).with(&words).with(out))
}
