// Runs: delta fields of one width, one after the other, each of which takes a running number to the next. One pass
// judges a run, and a later one hands its numbers out. Whether all fields are there is tested once; then two of them
// come out of one window.
ghost use Rattle.std.specs.Prelude.{◌≡◌, ◌+◌, ◌*◌, ◌%◌, ◌≤◌, [], ◌∷◌, ◌++◌, length};
ghost use Rattle.std.proofs.lemmas.List.Edits.{sets};
ghost use Rattle.bits.specs.Verdict.{limited};
ghost use Rattle.bits.specs.Number.{width_of};
ghost use Rattle.bits.specs.Run.{zeros, read_run, judged, check_says, low16, summed, run_there, run_filled};
ghost use Rattle.bits.specs.Run.{fives_there, fives_filled};
ghost use Rattle.bits.specs.Internal.{Inside, five, others, turns, at_start, FieldsAt, MovedBy, all_below, five_low};

use super::{one_inside, one_known, two_inside};
use crate::numbers::{bit_width, stepped};
use crate::refusals::Refusal;

// Where the first field stands, what the running numbers stay below, and how many fields there are, or how many fives
// of fields. A field is as wide as `bit_width` of the limit.
#[derive(Clone, Copy)]
pub struct Run {
    pub bit: usize,
    pub limit: u16,
    pub count: u32,
}

// The low 16 bits of a number.
fn low_half(x: u64) -> u16
    ensures { result ≡ low16 x }
{
    (x % 65_536) as u16
}

// ---- field by field, wherever the fields stand

// Five of a kind, in the order in which their fields come: fields, running numbers, or where fields take running
// numbers, in 64 bits. Below 0 those stand far above every limit.
#[derive(Clone, Copy)]
struct Five<T> {
    a: T,
    b: T,
    c: T,
    d: T,
    e: T,
}

// Five running numbers at their start.
const START: Five<u16> = Five {
    a: 0,
    b: 0,
    c: 0,
    d: 0,
    e: 0,
};

// The number that has moved waits at the back: alone, or behind the other four.
fn turned<const ALONE: bool>(v: Five<u16>, number: u16) -> Five<u16>
    ensures { turns ALONE result ≡ others ALONE v ++ (number ∷ []) }
{
    if ALONE {
        return Five { a: number, ..v };
    }
    Five {
        a: v.b,
        b: v.c,
        c: v.d,
        d: v.e,
        e: number,
    }
}

// One running number over so many fields, or five, which take turns. It stays out of its callers, whose fast way is
// shorter for that.
#[inline(never)]
fn check_turns<const ALONE: bool>(
    s: &[u8],
    start: usize,
    limit: u16,
    count: usize,
    width: u32,
) -> Result<(), Refusal>
    requires { (length s.now ≤ 67108864) × (width ≤ 17) }
    ensures answer { check_says result
        ≡ judged (read_run s.now width limit count start (at_start ALONE)) }
{
    let end = s.len() * 8;
    let size = width as usize;
    let mut bit = start;
    let mut v = START;
    for _ in 0..count {
        if end < bit {
            return Err(Refusal::TooFewBytes);
        }
        if end - bit < size {
            return Err(Refusal::TooFewBytes);
        }
        let number = stepped(v.a as u32, one_known(s, bit, width));
        if limit as u64 <= number {
            return Err(Refusal::RunningNumber);
        }
        v = turned::<ALONE>(v, number as u16);
        bit += size;
    }
    Ok(())
}

// ---- one running number

// A run of whole pairs of fields, which are all there, from any running number on.
fn check_pairs(s: &[u8], run: Run, width: u32, from: u16) -> Result<(), Refusal>
    requires inside { Inside s.now run.bit (run.count * width) }
    requires width_bound { (width ≤ 16) × (run.count % 2 ≡ 0) }
    ensures answer { check_says result
        ≡ judged (read_run s.now width run.limit run.count run.bit (from ∷ [])) }
{
    let limit = run.limit as u64;
    let mut bit = run.bit;
    let mut last = from;
    for _ in 0..run.count / 2 {
        let f = two_inside(s, bit, width);
        let a = stepped(last as u32, f.a);
        if limit <= a {
            return Err(Refusal::RunningNumber);
        }
        let b = stepped(a as u32, f.b);
        if limit <= b {
            return Err(Refusal::RunningNumber);
        }
        last = b as u16;
        bit += 2 * (width as usize);
    }
    Ok(())
}

// A run whose fields are all there: of an odd number the first alone, then two at a time.
fn check_inside(s: &[u8], run: Run, width: u32) -> Result<(), Refusal>
    requires inside { Inside s.now run.bit (run.count * width) }
    requires width_bound { width ≤ 16 }
    ensures answer { check_says result
        ≡ judged (read_run s.now width run.limit run.count run.bit (zeros 1)) }
{
    if run.count % 2 == 0 {
        return check_pairs(s, run, width, 0);
    }
    let first = stepped(0, one_inside(s, run.bit, width));
    if run.limit as u64 <= first {
        return Err(Refusal::RunningNumber);
    }
    let rest = Run {
        bit: run.bit + width as usize,
        limit: run.limit,
        count: run.count - 1,
    };
    check_pairs(s, rest, width, first as u16)
}

// Whether so many fields from a bit on lie inside s, where two of them share a window.
fn run_there(s: &[u8], bit: usize, width: u32, count: usize) -> bool
    ensures { result ≡ run_there s.now bit width count }
{
    if 67_108_864 < s.len() {
        return false;
    }
    if width < 1 {
        return false;
    }
    if 16 < width {
        return false;
    }
    if bit < 33 {
        return false;
    }
    let n = s.len() * 8;
    if n < bit {
        return false;
    }
    if n - bit < count {
        return false;
    }
    count * (width as usize) <= n - bit
}

// Judges a run of one running number: 2, then 3 and 8 in field order.
pub fn check_run(s: &[u8], run: Run) -> Result<(), Refusal>
    ensures answer { check_says result
        ≡ limited s.now
        (judged (read_run s.now (width_of run.limit) run.limit run.count run.bit (zeros 1))) }
{
    if 67_108_864 < s.len() {
        return Err(Refusal::PayloadTooLong);
    }
    let width = bit_width(run.limit as u32);
    if run_there(s, run.bit, width, run.count as usize) {
        return check_inside(s, run, width);
    }
    // Lent anew: passed on as it is, the slice is kept in memory on the fast way too, and tiny meshes wait for that.
    check_turns::<true>(&s[..], run.bit, run.limit, run.count as usize, width)
}

// ---- five running numbers, which take turns

// Five fields that are known to be there: two windows of two, and one of one.
fn five_inside(s: &[u8], bit: usize, width: u32) -> Five<u32>
    requires inside { Inside s.now bit (5 * width) }
    requires width_bound { width ≤ 16 }
    ensures { FieldsAt s.now width bit result }
{
    let step = 2 * (width as usize);
    let f = two_inside(s, bit, width);
    let g = two_inside(s, bit + step, width);
    Five {
        a: f.a,
        b: f.b,
        c: g.a,
        d: g.b,
        e: one_inside(s, bit + 2 * step, width),
    }
}

// Where five fields take five running numbers.
fn move_five(v: Five<u16>, f: Five<u32>) -> Five<u64>
    ensures { MovedBy f v result }
{
    Five {
        a: stepped(v.a as u32, f.a),
        b: stepped(v.b as u32, f.b),
        c: stepped(v.c as u32, f.c),
        d: stepped(v.d as u32, f.d),
        e: stepped(v.e as u32, f.e),
    }
}

fn all_below(v: Five<u64>, limit: u64) -> bool
    ensures { result ≡ all_below limit v }
{
    (v.a < limit) & (v.b < limit) & (v.c < limit) & (v.d < limit) & (v.e < limit)
}

fn low_five(v: Five<u64>) -> Five<u16>
    ensures { five result ≡ five_low v }
{
    Five {
        a: low_half(v.a),
        b: low_half(v.b),
        c: low_half(v.c),
        d: low_half(v.d),
        e: low_half(v.e),
    }
}

// Five running numbers over fives of fields that are all there.
fn check_all_fives(s: &[u8], run: Run, width: u32) -> Result<(), Refusal>
    requires inside { Inside s.now run.bit (5 * run.count * width) }
    requires width_bound { width ≤ 16 }
    ensures answer { check_says result
        ≡ judged (read_run s.now width run.limit (5 * run.count) run.bit (zeros 5)) }
{
    let limit = run.limit as u64;
    let mut bit = run.bit;
    let mut v = START;
    for _ in 0..run.count {
        let next = move_five(v, five_inside(s, bit, width));
        if !all_below(next, limit) {
            return Err(Refusal::RunningNumber);
        }
        v = low_five(next);
        bit += 5 * (width as usize);
    }
    Ok(())
}

// Beside `check_run`, and so `fill_fives` beside `fill_run`: two such calls share no more than the tests before the
// fast way, which is another for each, and one contract for both would say by cases what two say plainly.

// Judges a run of five running numbers, which has `count` fives of fields: 2, then 3 and 8 in field order.
pub fn check_fives(s: &[u8], run: Run) -> Result<(), Refusal>
    ensures answer { check_says result
        ≡ limited s.now
        (judged
        (read_run s.now (width_of run.limit) run.limit (5 * run.count) run.bit (zeros 5))) }
{
    if 67_108_864 < s.len() {
        return Err(Refusal::PayloadTooLong);
    }
    let width = bit_width(run.limit as u32);
    let count = 5 * (run.count as usize);
    if run_there(s, run.bit, width, count) {
        return check_all_fives(s, run, width);
    }
    // Lent anew, as in `check_run`.
    check_turns::<false>(&s[..], run.bit, run.limit, count, width)
}

// ---- the numbers of runs that were judged before

// A store for each, here and in `put_five`: as one slice the numbers are joined to words first, which is slower.
fn put_two(out: &mut [u16], at: usize, a: u16, b: u16)
    requires { at + 2 ≤ length out.old }
    ensures { out.new ≡ sets out.old at (a ∷ b ∷ []) }
{
    out[at] = a;
    out[at + 1] = b;
}

// Stores the numbers of a run whose fields are all there, two at a time.
fn fill_pairs(s: &[u8], start: usize, width: u32, from: u16, out: &mut [u16])
    requires inside { Inside s.now start (length out.old * width) }
    requires le_width { (1 ≤ width) × (width ≤ 16) }
    ensures numbers { out.new
        ≡ summed s.now width (length out.old) start (from ∷ []) }
{
    let n = out.len();
    let mut bit = start;
    let mut last = from;
    for i in 0..n / 2 {
        let f = two_inside(s, bit, width);
        let a = low_half(stepped(last as u32, f.a));
        last = low_half(stepped(a as u32, f.b));
        put_two(out, 2 * i, a, last);
        bit += 2 * (width as usize);
    }
    if n % 2 == 1 {
        out[n - 1] = low_half(stepped(last as u32, one_inside(s, bit, width)));
    }
}

// Fills a buffer with the numbers of a run that was judged before, from any running number on, and answers whether the
// run is there.
pub fn fill_run(s: &[u8], bit: usize, width: u32, from: u16, out: &mut [u16]) -> bool
    ensures answer { result ≡ run_there s.now bit width (length out.old) }
    ensures numbers { out.new ≡ run_filled s.now bit width (from ∷ []) out.old }
{
    if !run_there(s, bit, width, out.len()) {
        return false;
    }
    fill_pairs(s, bit, width, from, out);
    true
}

fn put_five(out: &mut [u16], at: usize, v: Five<u16>)
    requires { at + 5 ≤ length out.old }
    ensures { out.new ≡ sets out.old at (five v) }
{
    out[at] = v.a;
    out[at + 1] = v.b;
    out[at + 2] = v.c;
    out[at + 3] = v.d;
    out[at + 4] = v.e;
}

// Stores the numbers of five running numbers over whole fives of fields that are all there.
fn fill_all_fives(s: &[u8], start: usize, width: u32, out: &mut [u16])
    requires inside { Inside s.now start (length out.old * width) }
    requires le_width { (1 ≤ width) × (width ≤ 16) × (length out.old % 5 ≡ 0) }
    ensures numbers { out.new
        ≡ summed s.now width (length out.old) start (zeros 5) }
{
    let n = out.len();
    let mut bit = start;
    let mut v = START;
    for i in 0..n / 5 {
        v = low_five(move_five(v, five_inside(s, bit, width)));
        put_five(out, 5 * i, v);
        bit += 5 * (width as usize);
    }
}

// Fills a buffer of whole fives with the numbers of a run of five running numbers that was judged before, and answers
// whether the run is there.
pub fn fill_fives(s: &[u8], bit: usize, width: u32, out: &mut [u16]) -> bool
    ensures answer { result ≡ fives_there s.now bit width out.old }
    ensures numbers { out.new ≡ fives_filled s.now bit width out.old }
{
    if out.len() % 5 != 0 {
        return false;
    }
    if !run_there(s, bit, width, out.len()) {
        return false;
    }
    fill_all_fives(s, bit, width, out);
    true
}
