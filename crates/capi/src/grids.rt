// The calls that make the sphere's grid and the cube map.
ghost use Rattle.std.specs.Prelude.{◌≡◌, [], ◌∷◌, pos};
ghost use Rattle.bits.specs.Verdict.{mapped};
ghost use Rattle.bits.specs.Float.{bits_of};
ghost use Rattle.payload.specs.Fill.{both_lengths};
ghost use Rattle.payload.specs.Lent.{in_items, answer_for, buffers_after, at_entry};
ghost use Rattle.payload.specs.Float.{ratio};
ghost use Rattle.payload.specs.Crop.{full};
ghost use Rattle.payload.specs.Sphere.{sphere_numbers, sphere_uvs};
ghost use Rattle.payload.specs.Cube.{cube_numbers, cube_floats};
ghost use Rattle.capi.specs.Answer.{code_of, words_after, one, two};
ghost use Rattle.capi.specs.Values.{sides};

use super::hand_out;
use super::words::{fill_reply, reply};
use payload::Bounds;

pub fn capi_sphere_indices(rings: u32, sectors: u32, out: &mut [u16], words: &mut [u64]) -> i64
    ensures answer { result ≡ code_of (mapped one
        (answer_for (in_items 1 (sphere_numbers rings sectors full)) (at_entry (out ∷ [])))) }
    ensures words { words.new ≡ words_after words.old (mapped one
        (answer_for (in_items 1 (sphere_numbers rings sectors full)) (at_entry (out ∷ [])))) }
    ensures buffers { out.new ∷ []
        ≡ buffers_after (in_items 1 (sphere_numbers rings sectors full)) (at_entry (out ∷ [])) }
{
    hand_out(
        words,
        fill_reply(payload::sphere_indices(rings, sectors, out)),
    )
}

pub fn capi_sphere_indices_bounded(
    rings: u32,
    sectors: u32,
    top: f32,
    bottom: f32,
    left: f32,
    right: f32,
    out: &mut [u16],
    words: &mut [u64],
) -> i64
    ensures answer { result ≡ code_of (mapped one
        (answer_for (in_items 1 (sphere_numbers rings sectors (sides top bottom left right))) (at_entry (out ∷ [])))) }
    ensures words { words.new ≡ words_after words.old (mapped one
        (answer_for (in_items 1 (sphere_numbers rings sectors (sides top bottom left right))) (at_entry (out ∷ [])))) }
    ensures buffers { out.new ∷ []
        ≡ buffers_after (in_items 1 (sphere_numbers rings sectors (sides top bottom left right)))
        (at_entry (out ∷ [])) }
{
    let crop = Bounds {
        top,
        bottom,
        left,
        right,
    };
    hand_out(
        words,
        fill_reply(payload::sphere_indices_bounded(rings, sectors, crop, out)),
    )
}

pub fn capi_sphere_uvs(rings: u32, sectors: u32, out: &mut [u32], words: &mut [u64]) -> i64
    ensures answer { result ≡ code_of (mapped one
        (answer_for (in_items 2 (sphere_uvs rings sectors)) (at_entry (out ∷ [])))) }
    ensures words { words.new ≡ words_after words.old (mapped one
        (answer_for (in_items 2 (sphere_uvs rings sectors)) (at_entry (out ∷ [])))) }
    ensures buffers { out.new ∷ []
        ≡ buffers_after (in_items 2 (sphere_uvs rings sectors)) (at_entry (out ∷ [])) }
{
    hand_out(words, fill_reply(payload::sphere_uvs(rings, sectors, out)))
}

pub fn capi_cubemap_indices(cells: u32, out: &mut [u16], words: &mut [u64]) -> i64
    ensures answer { result ≡ code_of (mapped one
        (answer_for (in_items 1 (cube_numbers cells)) (at_entry (out ∷ [])))) }
    ensures words { words.new ≡ words_after words.old (mapped one
        (answer_for (in_items 1 (cube_numbers cells)) (at_entry (out ∷ [])))) }
    ensures buffers { out.new ∷ []
        ≡ buffers_after (in_items 1 (cube_numbers cells)) (at_entry (out ∷ [])) }
{
    hand_out(words, fill_reply(payload::cubemap_indices(cells, out)))
}

pub fn capi_cubemap_mesh(
    cells: u32,
    radius: f32,
    padding: f32,
    out: &mut [u32],
    words: &mut [u64],
) -> i64
    ensures answer { result ≡ code_of (mapped one
        (answer_for (in_items 5 (cube_floats cells radius padding)) (at_entry (out ∷ [])))) }
    ensures words { words.new ≡ words_after words.old (mapped one
        (answer_for (in_items 5 (cube_floats cells radius padding)) (at_entry (out ∷ [])))) }
    ensures buffers { out.new ∷ []
        ≡ buffers_after (in_items 5 (cube_floats cells radius padding)) (at_entry (out ∷ [])) }
{
    hand_out(
        words,
        fill_reply(payload::cubemap_mesh(cells, radius, padding, out)),
    )
}

pub fn capi_sphere_lengths(
    rings: u32,
    sectors: u32,
    top: f32,
    bottom: f32,
    left: f32,
    right: f32,
    words: &mut [u64],
) -> i64
    ensures answer { result ≡ code_of (mapped two
        (both_lengths (sphere_numbers rings sectors (sides top bottom left right)) (sphere_uvs rings sectors))) }
    ensures words { words.new ≡ words_after words.old (mapped two
        (both_lengths (sphere_numbers rings sectors (sides top bottom left right)) (sphere_uvs rings sectors))) }
{
    let crop = Bounds {
        top,
        bottom,
        left,
        right,
    };
    hand_out(words, reply(payload::sphere_lengths(rings, sectors, crop)))
}

pub fn capi_cubemap_lengths(cells: u32, radius: f32, padding: f32, words: &mut [u64]) -> i64
    ensures answer { result ≡ code_of (mapped two
        (both_lengths (cube_numbers cells) (cube_floats cells radius padding))) }
    ensures words { words.new ≡ words_after words.old (mapped two
        (both_lengths (cube_numbers cells) (cube_floats cells radius padding))) }
{
    hand_out(
        words,
        reply(payload::cubemap_lengths(cells, radius, padding)),
    )
}

pub fn capi_padding_share(padding: u32, face: u32) -> i64
    ensures { result ≡ pos (bits_of (ratio padding face)) }
{
    bits::float_bits(payload::padding_share(padding, face)) as i64
}
