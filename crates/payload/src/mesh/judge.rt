// Whether four tables are a mesh, and how long its box is. Nothing is written before all is judged.
ghost use Rattle.std.specs.Prelude.{◌≡◌, ◌≤◌, length};
ghost use Rattle.bits.specs.Verdict.{mapped};
ghost use Rattle.payload.specs.Float.{finite_word};
ghost use Rattle.payload.specs.MeshWrite.{all_of, all_below, mesh_written};
ghost use Rattle.payload.specs.InternalWriting.{row_fits, rows_all_fit, counts_fit, lengths_fit, size_of, judged_says};

use super::fields::word_is_finite;
use super::head::{run_bits, submeshes_at};
use bits::Refusal;

// Every number is below limit. All of them are looked at, since a fold, which has no way out, takes many at a time.
fn all_below(ns: &[u16], limit: u16) -> bool
    ensures { result ≡ all_below limit ns.now }
{
    ns.iter().fold(true, |all, n| all & (*n < limit))
}

// Every word is finite, found alike.
fn all_finite(words: &[u32]) -> bool
    ensures { result ≡ all_of finite_word words.now }
{
    words
        .iter()
        .fold(true, |all, word| all & word_is_finite(*word))
}

// A row of the submesh table is within the limits, and its points are no more than are left.
fn row_fits(texture: u32, mode: u32, count: usize, left: usize) -> bool
    ensures { result ≡ row_fits texture mode count left }
{
    (texture <= 255) & (mode <= 255) & (1 <= count) & (count <= 128_000) & (count <= left)
}

// The rows fit, and their counts add up to the points.
fn rows_fit(rows: &[u32], points: usize) -> bool
    ensures { result ≡ rows_all_fit rows.now points }
{
    if rows.len() % 3 != 0 {
        return false;
    }
    let mut left = points;
    for row in rows.chunks_exact(3) {
        let count = row[2] as usize;
        if !row_fits(row[0], row[1], count, left) {
            return false;
        }
        left -= count;
    }
    left == 0
}

// The size of a box: n words, v coordinate numbers of m vertices, k submeshes and q points.
fn box_size(n: usize, v: usize, m: usize, k: usize, q: usize) -> usize
    requires { (n ≤ 10000) × (v ≤ 200000) × (m ≤ 32000) × (k ≤ 67108864) × (q ≤ 536870912) }
    ensures { result ≡ size_of n v m k q }
{
    let place = submeshes_at(n, v);
    8 + (place + 32 + 48 * k + run_bits(q, m) + 7) / 8
}

// The lengths of three tables are within the limits: n words, v coordinate numbers, k words of rows.
fn counts_fit(n: usize, v: usize, k: usize) -> bool
    ensures { result ≡ counts_fit n v k }
{
    (1 <= n) & (n <= 10_000) & (v % 5 == 0) & (1 <= v / 5) & (v / 5 <= 32_000) & (1 <= k)
}

// Tables of k words of rows and q points are not so long that their box must be too long.
fn lengths_fit(k: usize, q: usize) -> bool
    ensures { result ≡ lengths_fit k q }
{
    (k <= 67_108_864) & (q <= 536_870_912)
}

// The size of four tables' box: 13 where they are no mesh, then 17 where a word of the pool is not finite.
pub(in crate::mesh) fn judge(
    pool: &[u32],
    coordinates: &[u16],
    rows: &[u32],
    points: &[u16],
) -> Result<usize, Refusal>
    ensures { judged_says result ≡ mapped length
        (mesh_written pool.now coordinates.now rows.now points.now) }
{
    let n = pool.len();
    let v = coordinates.len();
    let k = rows.len();
    let q = points.len();
    if !counts_fit(n, v, k) {
        return Err(Refusal::NotAMesh);
    }
    if !rows_fit(rows, q) {
        return Err(Refusal::NotAMesh);
    }
    if !lengths_fit(k, q) {
        return Err(Refusal::NotAMesh);
    }
    let size = box_size(n, v, v / 5, k / 3, q);
    if 67_108_864 < size {
        return Err(Refusal::NotAMesh);
    }
    if !all_below(coordinates, n as u16) {
        return Err(Refusal::NotAMesh);
    }
    if !all_below(points, (v / 5) as u16) {
        return Err(Refusal::NotAMesh);
    }
    if !all_finite(pool) {
        return Err(Refusal::NotFinite);
    }
    Ok(size)
}
