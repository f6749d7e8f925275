// Submeshes as triangles, for a card that takes nothing else: strips and fans taken apart, three point numbers a
// triangle.
ghost use Rattle.std.specs.Prelude.{◌≡◌, true, [], ◌∷◌, ◌+◌, ◌≤◌, ◌<◌, length};
ghost use Rattle.std.proofs.lemmas.List.Edits.{sets};
ghost use Rattle.bits.specs.Verdict.{mapped};
ghost use Rattle.payload.specs.Fill.{each, filled_says};
ghost use Rattle.payload.specs.Lent.{in_items, answer_for, buffers_after, at_entry};
ghost use Rattle.payload.specs.Records.{records_in};
ghost use Rattle.display.specs.Triangles.{triangle_count, corners_from, record_triangles, triangles_of};
ghost use Rattle.display.specs.Triangles.{record_usable, records_usable, triangles_made};
ghost use Rattle.display.specs.Internal.{point_after, Numbered, measured_says};

use super::record_at;
use bits::{FillError, Refusal};
use payload::{Filled, Record};

fn triangle_count(mode: u32, points: u32) -> u32
    ensures { result ≡ triangle_count mode points }
{
    match mode {
        0 => points / 3,
        _ => points.saturating_sub(2),
    }
}

fn put_triangle(out: &mut [u32], at: usize, a: u32, b: u32, c: u32)
    requires { at + 3 ≤ length out.old }
    ensures { out.new ≡ sets out.old at (a ∷ b ∷ c ∷ []) }
{
    out[at] = a;
    out[at + 1] = b;
    out[at + 2] = c;
}

// ---- a loop for each mode: one loop that asks for the mode takes up to three times as long

// Points in threes: so many numbers from first on.
fn put_threes(first: u32, numbers: usize, at: usize, out: &mut [u32])
    requires { (first + numbers ≤ 4294967295) × (at + numbers ≤ length out.old) }
    ensures { out.new ≡ sets out.old at (each (point_after first) numbers) }
{
    for i in 0..numbers {
        out[at + i] = first + i as u32;
    }
}

// A strip of n triangles, two at a time.
fn put_strip(first: u32, n: u32, at: usize, out: &mut [u32])
    requires numbered { Numbered first n }
    requires n_in_bounds { at + length (each (corners_from 1 first) n) ≤ length out.old }
    ensures { out.new ≡ sets out.old at (each (corners_from 1 first) n) }
{
    for pair in 0..n / 2 {
        let p = first + 2 * pair;
        let to = at + 6 * (pair as usize);
        put_triangle(out, to, p, p + 1, p + 2);
        put_triangle(out, to + 3, p + 2, p + 1, p + 3);
    }
    if n % 2 == 1 {
        let p = first + (n - 1);
        put_triangle(out, at + 3 * (n as usize - 1), p, p + 1, p + 2);
    }
}

// A fan of n triangles.
fn put_fan(first: u32, n: u32, at: usize, out: &mut [u32])
    requires numbered { Numbered first n }
    requires n_in_bounds { at + length (each (corners_from 2 first) n) ≤ length out.old }
    ensures { out.new ≡ sets out.old at (each (corners_from 2 first) n) }
{
    for k in 0..n {
        let p = first + k;
        put_triangle(out, at + 3 * (k as usize), first, p + 1, p + 2);
    }
}

// The triangles of a record, from out[at] on. The answer is the place after them.
fn put_record(submesh: Record, at: usize, out: &mut [u32]) -> usize
    requires { (submesh.first + submesh.points ≤ 4294967295)
        × (at + length (record_triangles submesh) ≤ length out.old) }
    ensures place { result ≡ at + length (record_triangles submesh) }
    ensures numbers { out.new ≡ sets out.old at (record_triangles submesh) }
{
    let first = submesh.first;
    let n = triangle_count(submesh.mode, submesh.points);
    let size = 3 * (n as usize);
    match submesh.mode {
        0 => put_threes(first, size, at, out),
        1 => put_strip(first, n, at, out),
        _ => put_fan(first, n, at, out),
    }
    at + size
}

fn record_usable(submesh: Record) -> bool
    ensures { result ≡ record_usable submesh }
{
    (submesh.mode <= 2) & (submesh.first as u64 + submesh.points as u64 <= 4_294_967_295)
}

// How many numbers the triangles of all records take: 15 where the records are not usable.
fn measure(records: &[u32]) -> Result<usize, Refusal>
    ensures { measured_says result ≡ mapped length (triangles_made records.now) }
{
    let n = records.len();
    if n % 5 != 0 {
        return Err(Refusal::Records);
    }
    let mut points: u32 = 0;
    let mut numbers: usize = 0;
    for number in 0..n / 5 {
        let submesh = record_at(records, 5 * number);
        if !record_usable(submesh) {
            return Err(Refusal::Records);
        }
        if u32::MAX - points < submesh.points {
            return Err(Refusal::Records);
        }
        points += submesh.points;
        numbers += 3 * (triangle_count(submesh.mode, submesh.points) as usize);
    }
    Ok(numbers)
}

fn fill(records: &[u32], out: &mut [u32])
    requires { (records_usable records.now ≡ true)
        × (length (triangles_of (records_in records.now)) ≤ length out.old) }
    ensures { out.new ≡ sets out.old 0 (triangles_of (records_in records.now)) }
{
    let mut to = 0;
    for number in 0..records.len() / 5 {
        to = put_record(record_at(records, 5 * number), to, out);
    }
}

// Puts the triangles of all records into out, submesh after submesh: 15, 12, or how many numbers.
pub fn triangles(records: &[u32], out: &mut [u32]) -> Filled
    ensures answer { filled_says result
        ≡ answer_for (in_items 1 (triangles_made records.now)) (at_entry (out ∷ [])) }
    ensures buffers { out.new ∷ []
        ≡ buffers_after (in_items 1 (triangles_made records.now)) (at_entry (out ∷ [])) }
{
    let count = measure(records)?;
    if out.len() < count {
        return Err(FillError::Needs(count));
    }
    fill(records, out);
    Ok(count)
}
