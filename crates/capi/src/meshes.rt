// The calls on mesh lists and mesh bodies.
ghost use Rattle.std.specs.Prelude.{◌≡◌, [], ◌∷◌};
ghost use Rattle.bits.specs.Verdict.{mapped, limited};
ghost use Rattle.payload.specs.Lent.{in_items, answer_for, buffers_after, at_entry};
ghost use Rattle.payload.specs.MeshRead.{read_meshes};
ghost use Rattle.payload.specs.Meshes.{list_size, meshes_plan, records_plan};
ghost use Rattle.payload.specs.Places.{place_found};
ghost use Rattle.payload.specs.Textures.{textures_found};
ghost use Rattle.payload.specs.Tables.{table_lengths, body_read, tables_plan};
ghost use Rattle.payload.specs.MeshWrite.{mesh_written};
ghost use Rattle.capi.specs.Answer.{code_of, words_after, one, three};
ghost use Rattle.capi.specs.Values.{size_words, place_words, table_words};

use super::hand_out;
use super::words::{fill_reply, reply};

pub fn capi_measure_meshes(payload: &[u8], words: &mut [u64]) -> i64
    ensures answer { result ≡ code_of (mapped size_words
        (limited payload.now (mapped list_size (read_meshes payload.now)))) }
    ensures words { words.new ≡ words_after words.old
        (mapped size_words (limited payload.now (mapped list_size (read_meshes payload.now)))) }
{
    hand_out(words, reply(payload::measure_meshes(payload)))
}

pub fn capi_find_submesh(payload: &[u8], number: u32, words: &mut [u64]) -> i64
    ensures answer { result ≡ code_of (mapped place_words (place_found payload.now number)) }
    ensures words { words.new
        ≡ words_after words.old (mapped place_words (place_found payload.now number)) }
{
    hand_out(words, reply(payload::find_submesh(payload, number)))
}

pub fn capi_mesh_records(payload: &[u8], records: &mut [u32], words: &mut [u64]) -> i64
    ensures answer { result ≡ code_of (mapped three
        (answer_for (records_plan payload.now) (at_entry (records ∷ [])))) }
    ensures words { words.new ≡ words_after words.old (mapped three
        (answer_for (records_plan payload.now) (at_entry (records ∷ [])))) }
    ensures buffers { records.new ∷ []
        ≡ buffers_after (records_plan payload.now) (at_entry (records ∷ [])) }
{
    hand_out(words, fill_reply(payload::mesh_records(payload, records)))
}

pub fn capi_texture_points(payload: &[u8], out: &mut [u32], words: &mut [u64]) -> i64
    ensures answer { result ≡ code_of (mapped one
        (answer_for (in_items 2 (textures_found payload.now)) (at_entry (out ∷ [])))) }
    ensures words { words.new ≡ words_after words.old (mapped one
        (answer_for (in_items 2 (textures_found payload.now)) (at_entry (out ∷ [])))) }
    ensures buffers { out.new ∷ []
        ≡ buffers_after (in_items 2 (textures_found payload.now)) (at_entry (out ∷ [])) }
{
    hand_out(words, fill_reply(payload::texture_points(payload, out)))
}

pub fn capi_parse_meshes(
    payload: &[u8],
    numbers: &mut [u16],
    floats: &mut [u32],
    records: &mut [u32],
    words: &mut [u64],
) -> i64
    ensures answer { result ≡ code_of (mapped size_words
        (answer_for (meshes_plan payload.now) (at_entry (numbers ∷ floats ∷ records ∷ [])))) }
    ensures words { words.new ≡ words_after words.old (mapped size_words
        (answer_for (meshes_plan payload.now) (at_entry (numbers ∷ floats ∷ records ∷ [])))) }
    ensures buffers { numbers.new ∷ floats.new ∷ records.new ∷ []
        ≡ buffers_after (meshes_plan payload.now) (at_entry (numbers ∷ floats ∷ records ∷ [])) }
{
    hand_out(
        words,
        fill_reply(payload::parse_meshes(payload, numbers, floats, records)),
    )
}

pub fn capi_measure_mesh(body: &[u8], words: &mut [u64]) -> i64
    ensures answer { result ≡ code_of (mapped table_words (mapped table_lengths (body_read body.now))) }
    ensures words { words.new ≡ words_after words.old
        (mapped table_words (mapped table_lengths (body_read body.now))) }
{
    hand_out(words, reply(payload::measure_mesh(body)))
}

pub fn capi_parse_mesh(
    body: &[u8],
    pool: &mut [u32],
    coordinates: &mut [u16],
    submeshes: &mut [u32],
    points: &mut [u16],
    words: &mut [u64],
) -> i64
    ensures answer { result ≡ code_of (mapped table_words
        (answer_for (tables_plan body.now) (at_entry (pool ∷ coordinates ∷ submeshes ∷ points ∷ [])))) }
    ensures words { words.new ≡ words_after words.old (mapped table_words
        (answer_for (tables_plan body.now) (at_entry (pool ∷ coordinates ∷ submeshes ∷ points ∷ [])))) }
    ensures buffers { pool.new ∷ coordinates.new ∷ submeshes.new ∷ points.new
        ∷ []
        ≡ buffers_after (tables_plan body.now) (at_entry (pool ∷ coordinates ∷ submeshes ∷ points ∷ [])) }
{
    hand_out(
        words,
        fill_reply(payload::parse_mesh(body, pool, coordinates, submeshes, points)),
    )
}

pub fn capi_write_mesh(
    pool: &[u32],
    coordinates: &[u16],
    submeshes: &[u32],
    points: &[u16],
    out: &mut [u8],
    words: &mut [u64],
) -> i64
    ensures answer { result ≡ code_of (mapped one
        (answer_for (in_items 1 (mesh_written pool.now coordinates.now
        submeshes.now points.now)) (at_entry (out ∷ [])))) }
    ensures words { words.new ≡ words_after words.old (mapped one
        (answer_for (in_items 1 (mesh_written pool.now coordinates.now
        submeshes.now points.now)) (at_entry (out ∷ [])))) }
    ensures buffers { out.new ∷ []
        ≡ buffers_after (in_items 1 (mesh_written pool.now coordinates.now
        submeshes.now points.now)) (at_entry (out ∷ [])) }
{
    hand_out(
        words,
        fill_reply(payload::write_mesh(pool, coordinates, submeshes, points, out)),
    )
}
