// The validating pass over a mesh list: it answers every refusal but 12, and how long the drawing is, and touches
// nothing.
ghost use Rattle.std.specs.Prelude.{◌≡◌, ◌+◌, ◌*◌, ◌<◌, ◌≤◌, length};
ghost use Rattle.bits.specs.Verdict.{mapped};
ghost use Rattle.bits.specs.Verdict.{limited};
ghost use Rattle.bits.specs.Says.{number_of};
ghost use Rattle.payload.specs.MeshRead.{many, read_word, read_submesh, read_submeshes, after_pool_count, read_mesh};
ghost use Rattle.payload.specs.MeshRead.{read_meshes};
ghost use Rattle.payload.specs.Internal.{after_counts, PoolThere, SubmeshPlace, points_end, submeshes_size};
ghost use Rattle.payload.specs.Internal.{body_size, Room, with_body, box_totals, box_refusal, no_totals, totals_of};
ghost use Rattle.payload.specs.Internal.{pool_says, nothing, submesh_says, submeshes_says, body_says, totals_says};
ghost use Rattle.payload.specs.Meshes.{list_size, measured_says};
ghost use Rattle.payload.specs.Tables.{table_lengths, body_read, table_lengths_says};

use super::MESH;
use super::fields::{one_field, pool_word, word};
use super::head::submeshes_at;
use bits::{BoxHeader, ByteCursor, Refusal, Run};

// How much there is of a mesh list: its meshes, submeshes and points, and the lengths of its drawing's three lists.
#[derive(Clone, Copy)]
pub struct MeshListSize {
    pub meshes: usize,
    pub submeshes: usize,
    pub points: usize,
    pub numbers: usize,
    pub floats: usize,
    pub records: usize,
}

// A submesh's point count, and the bit place after it.
#[derive(Clone, Copy)]
struct SubmeshEnd {
    points: u32,
    bit: usize,
}

fn check_submesh(s: &[u8], p: usize, w: usize, m: u32) -> Result<SubmeshEnd, Refusal>
    requires { SubmeshPlace s.now w m p }
    ensures { submesh_says result ≡ mapped points_end (read_submesh s.now w m p) }
{
    let end = s.len() * 8;
    if end - p < 48 {
        return Err(Refusal::TooFewBytes);
    }
    let count = one_field(s, p + 16, 32);
    if count < 1 {
        return Err(Refusal::MeshCount);
    }
    if 128_000 < count {
        return Err(Refusal::MeshCount);
    }
    let run = Run {
        bit: p + 48,
        limit: m as u16,
        count,
    };
    bits::check_run(s, run)?;
    Ok(SubmeshEnd {
        points: count,
        bit: p + 48 + (count as usize) * w,
    })
}

// How many submeshes there are, and how many points they have in all.
#[derive(Clone, Copy)]
struct SubmeshesSize {
    submeshes: u32,
    points: usize,
}

// The submeshes from bit p on, of which there are count.
fn check_submeshes(
    s: &[u8],
    p: usize,
    w: usize,
    m: u32,
    count: u32,
) -> Result<SubmeshesSize, Refusal>
    requires { SubmeshPlace s.now w m p }
    ensures { submeshes_says result ≡ mapped submeshes_size (many (read_submesh s.now w m) count p) }
{
    let mut bit = p;
    let mut points: usize = 0;
    for _ in 0..count {
        let submesh = check_submesh(s, bit, w, m)?;
        points += submesh.points as usize;
        bit = submesh.bit;
    }
    Ok(SubmeshesSize {
        submeshes: count,
        points,
    })
}

// The submesh count at bit p, and the submeshes.
fn check_submesh_list(s: &[u8], p: usize, w: usize, m: u32) -> Result<SubmeshesSize, Refusal>
    requires { SubmeshPlace s.now w m p }
    ensures { submeshes_says result ≡ mapped submeshes_size (read_submeshes s.now w m p) }
{
    let end = s.len() * 8;
    if end - p < 32 {
        return Err(Refusal::TooFewBytes);
    }
    let count = one_field(s, p, 32);
    if count < 1 {
        return Err(Refusal::MeshCount);
    }
    check_submeshes(s, p + 32, w, m, count)
}

// The vertices, submeshes and points of a mesh body.
#[derive(Clone, Copy)]
struct BodySize {
    vertices: u32,
    submeshes: u32,
    points: usize,
}

// From the vertices on, of which there are m, over n coordinates.
fn check_from_vertices(s: &[u8], n: u32, m: u32) -> Result<BodySize, Refusal>
    requires { (length s.now ≤ 67108864) × (1 ≤ n) × (n ≤ 10000) × (1 ≤ m) × (m ≤ 32000)
        × (32 * n + 64 ≤ 8 * length s.now) }
    ensures { body_says result ≡ mapped body_size (after_counts s.now n m) }
{
    let start = 32 * (n as usize) + 64;
    let run = Run {
        bit: start,
        limit: n as u16,
        count: m,
    };
    bits::check_fives(s, run)?;
    let place = submeshes_at(n as usize, 5 * (m as usize));
    let v = bits::bit_width(m) as usize;
    let size = check_submesh_list(s, place, v, m)?;
    Ok(BodySize {
        vertices: m,
        submeshes: size.submeshes,
        points: size.points,
    })
}

// The n words of a pool, one after the other: 3 where one is not there, 17 where one is not finite.
fn check_pool(s: &[u8], n: u32) -> Result<(), Refusal>
    requires { (length s.now ≤ 67108864) × (4 ≤ length s.now) × (n ≤ 10000) }
    ensures { pool_says result ≡ mapped nothing (many (read_word s.now) n 32) }
{
    for i in 0..n as usize {
        pool_word(s, 4 * i + 4)?;
    }
    Ok(())
}

// From the vertex count on, after a pool of n good words.
fn check_after_pool(s: &[u8], n: u32) -> Result<BodySize, Refusal>
    requires { (length s.now ≤ 67108864) × (1 ≤ n) × (n ≤ 10000) × PoolThere s.now n }
    ensures { body_says result ≡ mapped body_size (after_pool_count s.now n) }
{
    if s.len() * 8 < 32 * (n as usize) + 64 {
        return Err(Refusal::TooFewBytes);
    }
    let m = word(s, 4 * (n as usize) + 4);
    if m < 1 {
        return Err(Refusal::MeshCount);
    }
    if 32_000 < m {
        return Err(Refusal::MeshCount);
    }
    check_from_vertices(s, n, m)
}

// A mesh body.
fn check_mesh(s: &[u8]) -> Result<BodySize, Refusal>
    requires { length s.now ≤ 67108864 }
    ensures { body_says result ≡ mapped body_size (read_mesh s.now) }
{
    if s.len() < 4 {
        return Err(Refusal::TooFewBytes);
    }
    let n = word(s, 0);
    if n < 1 {
        return Err(Refusal::MeshCount);
    }
    if 10_000 < n {
        return Err(Refusal::MeshCount);
    }
    check_pool(s, n)?;
    check_after_pool(s, n)
}

// What was counted of a list so far.
#[derive(Clone, Copy)]
struct Totals {
    meshes: usize,
    coordinates: usize,
    submeshes: usize,
    points: usize,
}

// The totals with those of a mesh body added.
fn add_body(s: &[u8], t: Totals, at: usize) -> Result<Totals, Refusal>
    requires { (length s.now ≤ 67108864) × Room t at × (at + length s.now ≤ 67108864) }
    ensures { totals_says result ≡ mapped (with_body t) (read_mesh s.now) }
{
    let size = check_mesh(s)?;
    Ok(Totals {
        meshes: t.meshes + 1,
        coordinates: t.coordinates + 5 * (size.vertices as usize),
        submeshes: t.submeshes + size.submeshes as usize,
        points: t.points + size.points,
    })
}

// The totals with those of a box: a mesh box's body is counted, but a third one is refused, and another box is skipped.
fn add_box(s: &[u8], fourcc: u32, body: usize, end: usize, t: Totals) -> Result<Totals, Refusal>
    requires { (length s.now ≤ 67108864) × (body ≤ end) × (end ≤ length s.now) × Room t body }
    ensures { totals_says result ≡ box_totals s.now fourcc body end t }
{
    if fourcc != MESH {
        return Ok(t);
    }
    if 2 <= t.meshes {
        return Err(Refusal::ThirdMesh);
    }
    add_body(&s[body..end], t, body)
}

// The refusal of a box by its long size: a third mesh box is refused before that, by its type.
fn refused_box(fourcc: u32, refusal: Refusal, t: Totals) -> Refusal
    ensures { number_of result ≡ box_refusal fourcc (number_of refusal) t }
{
    if fourcc != MESH {
        return refusal;
    }
    if t.meshes < 2 {
        return refusal;
    }
    Refusal::ThirdMesh
}

// The totals of a list of boxes.
fn measure_list(s: &[u8]) -> Result<Totals, Refusal>
    requires { length s.now ≤ 67108864 }
    ensures { totals_says result ≡ mapped (totals_of no_totals) (read_meshes s.now) }
{
    let mut at: usize = 0;
    let mut t = Totals {
        meshes: 0,
        coordinates: 0,
        submeshes: 0,
        points: 0,
    };
    // no index is counted here: a turn goes on where the box ends, and each end of the list answers otherwise
    loop {
        match bits::box_header(s, ByteCursor { at }) {
            BoxHeader::ListEnd => {
                return Ok(t);
            }
            BoxHeader::BadSize => {
                return Err(Refusal::BoxSize);
            }
            BoxHeader::Header { fourcc, body, end } => {
                t = add_box(s, fourcc, body, end, t)?;
                at = end;
            }
            BoxHeader::Refused { fourcc, refusal } => {
                return Err(refused_box(fourcc, refusal, t));
            }
        }
    }
}

// Measures a mesh list: 2, then 3, 6, 7, 8, 17 and 18 in payload order.
pub fn measure_meshes(payload: &[u8]) -> Result<MeshListSize, Refusal>
    ensures { measured_says result
        ≡ limited payload.now (mapped list_size (read_meshes payload.now)) }
{
    if 67_108_864 < payload.len() {
        return Err(Refusal::PayloadTooLong);
    }
    let t = measure_list(payload)?;
    Ok(MeshListSize {
        meshes: t.meshes,
        submeshes: t.submeshes,
        points: t.points,
        numbers: t.coordinates,
        floats: 5 * t.points,
        records: 5 * t.submeshes,
    })
}

// The lengths of a mesh's four tables.
#[derive(Clone, Copy)]
pub struct TableLengths {
    pub pool: usize,
    pub coordinates: usize,
    pub submeshes: usize,
    pub points: usize,
}

// Measures a mesh body: 2, then 3, 7, 8 and 17 in field order.
pub fn measure_mesh(body: &[u8]) -> Result<TableLengths, Refusal>
    ensures { table_lengths_says result ≡ mapped table_lengths (body_read body.now) }
{
    if 67_108_864 < body.len() {
        return Err(Refusal::PayloadTooLong);
    }
    let size = check_mesh(body)?;
    Ok(TableLengths {
        pool: word(body, 0) as usize,
        coordinates: 5 * (size.vertices as usize),
        submeshes: 3 * (size.submeshes as usize),
        points: size.points,
    })
}
