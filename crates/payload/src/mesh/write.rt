// The mesh writer: four tables, judged first, then written once from front to back.
// Fewer than 32 bits wait at a time; when there are more, four whole bytes go out.
ghost use Rattle.std.specs.Prelude.{◌≡◌, ◌+◌, ◌*◌, ◌%◌, ◌^◌, ◌<◌, ◌≤◌, true, [], ◌∷◌, ◌++◌, length, slice_index};
ghost use Rattle.std.proofs.lemmas.List.Edits.{sets};
ghost use Rattle.bits.specs.Run.{zeros};
ghost use Rattle.payload.specs.Fill.{filled_says};
ghost use Rattle.payload.specs.Lent.{in_items, answer_for, buffers_after, at_entry};
ghost use Rattle.payload.specs.MeshWrite.{step_field, word_fields, run_fields, submesh_fields, submeshes_fields};
ghost use Rattle.payload.specs.MeshWrite.{vertex_fields, box_size, mesh_box, submeshes_of, tables_mesh};
ghost use Rattle.payload.specs.MeshWrite.{is_mesh, mesh_written};
ghost use Rattle.payload.specs.InternalWriting.{Ready, Advances, waiting, outcome, rest_fields, rows_all_fit};

use super::MESH;
use super::judge::judge;
use crate::answers::Filled;
use bits::FillError;

// The byte where the bits go that wait, and how many they are. They are the low bits of `held`; what stands above them
// is out already.
#[derive(Clone, Copy)]
struct BitWriter {
    at: usize,
    held: u64,
    bits: usize,
}

impl BitWriter {
    // The bits that wait with a field after them.
    fn joined(self, width: usize, value: u32) -> u64
        requires { (self.bits < 32) × (width ≤ 32) × (value < 2 ^ width) }
        ensures { result % 2 ^ (self.bits + width) ≡ waiting self * 2 ^ width + value }
    {
        (self.held << width) + value as u64
    }

    // One field more. What goes out is stored here: `bits::put_word` would test its place again, which is slower.
    fn put(self, out: &mut [u8], width: usize, value: u32) -> BitWriter
        requires ready { Ready out.old self ((width, value) ∷ []) }
        requires width_bound { width ≤ 32 }
        ensures { Advances out.old self ((width, value) ∷ []) out.new result [] }
    {
        let at = self.at;
        let all = self.bits + width;
        let held = self.joined(width, value);
        if all < 32 {
            return BitWriter {
                at,
                held,
                bits: all,
            };
        }
        let bits = all - 32;
        let word = ((held >> bits) % 0x1_0000_0000) as u32;
        out[at..at + 4].copy_from_slice(&word.to_be_bytes());
        BitWriter {
            at: at + 4,
            held,
            bits,
        }
    }

    // The bits that still wait, and zero bits to the end of their last byte.
    fn finish(self, out: &mut [u8])
        requires { Ready out.old self [] × (self.at ≤ 67108864) }
        ensures { out.new ≡ outcome out.old self [] }
    {
        let low = (self.held % 0x1_0000_0000) as u32;
        bits::put_field(out, 8 * self.at, self.bits as u32, low).unwrap();
    }

    // Words of 32 bits.
    fn put_words(self, out: &mut [u8], words: &[u32]) -> BitWriter
        requires { Ready out.old self (word_fields words.now) }
        ensures { Advances out.old self (word_fields words.now) out.new result [] }
    {
        let mut to = self;
        for word in words {
            to = to.put(out, 32, *word);
        }
        to
    }

    // A run of numbers, each told by its step from the number stride places before.
    fn put_run(self, out: &mut [u8], width: usize, stride: usize, ns: &[u16]) -> BitWriter
        requires ready { Ready out.old self (run_fields width (zeros stride) ns.now) }
        requires width_bound { (width ≤ 32) × (1 ≤ stride) }
        ensures { Advances out.old self (run_fields width (zeros stride) ns.now)
            out.new result [] }
    {
        let mut to = self;
        for (i, n) in ns.iter().enumerate() {
            to = to.put(out, width, step_field(previous(ns, stride, i), *n));
        }
        to
    }

    // A submesh: texture, mode, index count and points.
    fn put_submesh(
        self,
        out: &mut [u8],
        width: usize,
        texture: u32,
        mode: u32,
        points: &[u16],
    ) -> BitWriter
        requires ready { Ready out.old self
            (submesh_fields width (record { texture = texture; mode = mode; points = points.now })) }
        requires width_bound { width ≤ 32 }
        ensures { Advances out.old self
            (submesh_fields width (record { texture = texture; mode = mode; points = points.now }))
            out.new result [] }
    {
        self.put(out, 8, texture)
            .put(out, 8, mode)
            .put(out, 32, points.len() as u32)
            .put_run(out, width, 1, points)
    }

    // The submeshes of rows that fit: each takes its points off what is left of them.
    fn put_submeshes(self, out: &mut [u8], width: usize, rows: &[u32], points: &[u16]) -> BitWriter
        requires ready { Ready out.old self (submeshes_fields width (submeshes_of rows.now points.now)) }
        requires width_bound { width ≤ 32 }
        requires points_value { rows_all_fit rows.now (length points.now) ≡ true }
        ensures { Advances out.old self
            (submeshes_fields width (submeshes_of rows.now points.now)) out.new result [] }
    {
        let mut to = self;
        let mut left = points;
        for row in rows.chunks_exact(3) {
            let (own, more) = left.split_at(row[2] as usize);
            to = to.put_submesh(out, width, row[0], row[1], own);
            left = more;
        }
        to
    }

    // Coordinate count, words, vertex count and vertices.
    fn put_vertices(self, out: &mut [u8], pool: &[u32], coordinates: &[u16]) -> BitWriter
        requires ready { Ready out.old self (vertex_fields (tables_mesh pool.now coordinates.now [] [])) }
        requires pool_len_bound { length pool.now ≤ 10000 }
        ensures { Advances out.old self
            (vertex_fields (tables_mesh pool.now coordinates.now [] [])) out.new result [] }
    {
        let n = pool.len() as u32;
        self.put(out, 32, n)
            .put_words(out, pool)
            .put(out, 32, (coordinates.len() / 5) as u32)
            .put_run(out, bits::bit_width(n) as usize, 5, coordinates)
    }

    // Zero bits to the next byte, submesh count and submeshes, whose points are among m vertices.
    fn put_submesh_list(self, out: &mut [u8], m: usize, rows: &[u32], points: &[u16]) -> BitWriter
        requires ready { Ready out.old self (rest_fields self.bits m (submeshes_of rows.now points.now)) }
        requires m_bound { m ≤ 32000 }
        requires points_value { rows_all_fit rows.now (length points.now) ≡ true }
        ensures { Advances out.old self
            (rest_fields self.bits m (submeshes_of rows.now points.now)) out.new result [] }
    {
        self.put(out, (self.bits + 7) / 8 * 8 - self.bits, 0)
            .put(out, 32, (rows.len() / 3) as u32)
            .put_submeshes(out, bits::bit_width(m as u32) as usize, rows, points)
    }
}

// The field that takes a running number from last to next: twice the step up, or twice the step down less 1.
// That is the lesser of twice the step, modulo 2^32, and its complement. It becomes code without a branch, and
// shorter code than `min` does: a step's direction is hard to foresee.
fn step_field(last: u16, next: u16) -> u32
    ensures { result ≡ step_field last next }
{
    let twice = (2 * next as u32).wrapping_sub(2 * last as u32);
    let complement = 0xFFFF_FFFF - twice;
    if complement < twice {
        complement
    } else {
        twice
    }
}

// The number stride places before the one at i; a run starts with zeros.
fn previous(ns: &[u16], stride: usize, i: usize) -> u16
    requires { i < length ns.now }
    ensures { result ≡ slice_index (zeros stride ++ ns.now) i }
{
    if i < stride {
        return 0;
    }
    ns[i - stride]
}

// The box of tables that are a mesh, into a buffer that is long enough.
fn put_box(
    pool: &[u32],
    coordinates: &[u16],
    rows: &[u32],
    points: &[u16],
    size: usize,
    out: &mut [u8],
)
    requires points_value { is_mesh pool.now coordinates.now rows.now points.now ≡ true }
    requires size_value { size ≡ box_size (tables_mesh pool.now coordinates.now rows.now points.now) }
    requires size_in_bounds { size ≤ length out.old }
    ensures { out.new ≡ sets out.old 0 (mesh_box (tables_mesh pool.now
        coordinates.now rows.now points.now)) }
{
    let start = BitWriter {
        at: 0,
        held: 0,
        bits: 0,
    };
    start
        .put(out, 32, size as u32)
        .put(out, 32, MESH)
        .put_vertices(out, pool, coordinates)
        .put_submesh_list(out, coordinates.len() / 5, rows, points)
        .finish(out);
}

// Writes the box of a mesh, given by the tables that `parse_mesh` fills, at the front of a buffer: 13,
// then 17, then 12.
pub fn write_mesh(
    pool: &[u32],
    coordinates: &[u16],
    submeshes: &[u32],
    points: &[u16],
    out: &mut [u8],
) -> Filled
    ensures answer { filled_says result ≡ answer_for (in_items 1 (mesh_written pool.now
        coordinates.now submeshes.now points.now)) (at_entry (out ∷ [])) }
    ensures buffers { out.new ∷ [] ≡ buffers_after (in_items 1 (mesh_written pool.now
        coordinates.now submeshes.now points.now)) (at_entry (out ∷ [])) }
{
    match judge(pool, coordinates, submeshes, points) {
        Err(refusal) => Err(FillError::Refused(refusal)),
        Ok(n) => {
            if out.len() < n {
                return Err(FillError::Needs(n));
            }
            put_box(pool, coordinates, submeshes, points, n, out);
            Ok(n)
        }
    }
}
