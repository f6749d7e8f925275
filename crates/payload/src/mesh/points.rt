// The words of points. Vertices' coordinate numbers stand in `numbers`; points read them back from there, and their
// words from the payload, or copy them from where the vertices are expanded.
ghost use Rattle.std.specs.Prelude.{◌≡◌, ◌+◌, ◌*◌, ◌<◌, ◌≤◌, [], ◌∷◌, length, slice_index};
ghost use Rattle.std.proofs.lemmas.List.Edits.{sets};
ghost use Rattle.bits.specs.Run.{last_of};
ghost use Rattle.payload.specs.MeshDrawing.{point_words, run_words};
ghost use Rattle.payload.specs.Internal.{PointsThere, points_of, PointsExpanded, PointsBelow};
ghost use Rattle.payload.specs.Internal.{SomeRun, some_numbers};
ghost use Rattle.payload.specs.InternalPoints.{vertex_words, VerticesExpanded};
ghost use Rattle.payload.specs.Internal.{pool_word, word_at, word_in, words_from, Pooled, ExpandedFrom};

use super::fields::word;
use super::vertices::Vertices;
use super::{CoordinateNumber, VertexNumber};
use bits::Run;

// The pool word of a coordinate number.
fn pool_word(s: &[u8], c: CoordinateNumber) -> u32
    requires { (length s.now ≤ 67108864) × (32 * c.0 + 64 ≤ 8 * length s.now) }
    ensures { result ≡ pool_word s.now c.0 }
{
    word(s, 4 + 4 * (c.0 as usize))
}

// The pool word of the coordinate number at place k of numbers.
pub(in crate::mesh) fn word_at(s: &[u8], numbers: &[u16], k: usize) -> u32
    requires { (length s.now ≤ 67108864) × (k < length numbers.now)
        × (32 * slice_index numbers.now k + 64 ≤ 8 * length s.now) }
    ensures { result ≡ word_at s.now numbers.now k }
{
    pool_word(s, CoordinateNumber(numbers[k]))
}

// Copies the five words of a vertex to a place before them. All are read first, so that they are copied together;
// `copy_within` copies them one by one, which is slower.
fn copy_point(words: &mut [u32], from: usize, at: usize)
    requires { (at + 5 ≤ from) × (from + 5 ≤ length words.old) }
    ensures { words.new
        ≡ sets words.old at (point_words (word_in words.old) from) }
{
    let a = words[from];
    let b = words[from + 1];
    let c = words[from + 2];
    let d = words[from + 3];
    let e = words[from + 4];
    words[at] = a;
    words[at + 1] = b;
    words[at + 2] = c;
    words[at + 3] = d;
    words[at + 4] = e;
}

// Copies the words of some vertices, which are expanded from that place on, to a place before all of them.
fn copy_points(points: &[u16], words: &mut [u32], expanded: usize, at: usize)
    requires points_expanded { PointsExpanded words.old expanded points.now }
    requires points_bound { at + 5 * length points.now ≤ expanded }
    ensures floats { words.new
        ≡ sets words.old at (run_words (word_in words.old) expanded points.now) }
{
    let mut to = at;
    for vertex in points {
        copy_point(words, expanded + 5 * (*vertex as usize), to);
        to += 5;
    }
}

impl<'a> Vertices<'a> {
    // Stores the five words of a vertex. Each is stored before the next is read: to read all first is slower.
    fn draw_point(&self, v: VertexNumber, words: &mut [u32], at: usize)
        requires { (v.0 < self.now.count) × (at + 5 ≤ length words.old) }
        ensures { words.new ≡ sets words.old at
            (point_words (word_at self.now.s.now self.now.numbers.now) (self.now.base + 5 * v.0)) }
    {
        let k = self.base + 5 * (v.0 as usize);
        words[at] = word_at(self.s, self.numbers, k);
        words[at + 1] = word_at(self.s, self.numbers, k + 1);
        words[at + 2] = word_at(self.s, self.numbers, k + 2);
        words[at + 3] = word_at(self.s, self.numbers, k + 3);
        words[at + 4] = word_at(self.s, self.numbers, k + 4);
    }

    // Stores the words of some vertices, point by point.
    fn draw_points(&self, points: &[u16], words: &mut [u32], at: usize)
        requires points_below { PointsBelow self.now.count points.now }
        requires points_in_bounds { at + 5 * length points.now ≤ length words.old }
        ensures floats { words.new ≡ sets words.old at (vertex_words self.now points.now) }
    {
        let mut to = at;
        for vertex in points {
            self.draw_point(VertexNumber(*vertex), words, to);
            to += 5;
        }
    }

    // Stores the words of some vertices: by copies where they are expanded behind all that is stored, and else from the
    // pool.
    fn put_points(&self, points: &[u16], words: &mut [u32], at: usize, expanded: usize)
        requires points_below { PointsBelow self.now.count points.now }
        requires points_in_bounds { (at + 5 * length points.now ≤ length words.old) × (1 ≤ length points.now) }
        requires expanded_from { VerticesExpanded at self.now words.old expanded }
        ensures floats { words.new ≡ sets words.old at (vertex_words self.now points.now) }
    {
        if expanded < at + 5 * points.len() {
            self.draw_points(points, words, at);
            return;
        }
        copy_points(points, words, expanded, at);
    }

    // Stores the words of the next points of a run, and returns the last one's vertex. Their numbers are worked out
    // first, so that the reads of their words do not wait for each other.
    fn draw_some(
        &self,
        run: Run,
        from: VertexNumber,
        words: &mut [u32],
        at: usize,
        expanded: usize,
    ) -> VertexNumber
        requires some_run { SomeRun self.now.s.now run }
        requires points_below { PointsBelow self.now.count (some_numbers self.now.s.now run from.0) }
        requires count_in_bounds { at + 5 * run.count ≤ length words.old }
        requires expanded_from { VerticesExpanded at self.now words.old expanded }
        ensures vertex { result.0 ≡ last_of from.0 (some_numbers self.now.s.now run from.0) }
        ensures floats { words.new
            ≡ sets words.old at (vertex_words self.now (some_numbers self.now.s.now run from.0)) }
    {
        let n = run.count as usize;
        let width = bits::bit_width(run.limit as u32);
        let mut points = [0u16; 64];
        bits::fill_run(self.s, run.bit, width, from.0, &mut points[..n]);
        self.put_points(&points[..n], words, at, expanded);
        VertexNumber(points[n - 1])
    }
}

// Stores the words of a run of points that is known to be read whole. The vertices' coordinate numbers stand in numbers
// from base on; `expanded` is where their words are expanded.
pub(in crate::mesh) fn draw_run(
    s: &[u8],
    run: Run,
    numbers: &[u16],
    base: usize,
    words: &mut [u32],
    at: usize,
    expanded: usize,
)
    requires points_there { PointsThere s.now run }
    requires pooled { Pooled s.now numbers.now base (5 * run.limit) }
    requires count_in_bounds { at + 5 * run.count ≤ length words.old }
    requires expanded_from { ExpandedFrom at s.now numbers.now base (5 * run.limit) words.old expanded }
    ensures floats { words.new
        ≡ sets words.old at
        (run_words (word_at s.now numbers.now) base (points_of s.now run)) }
{
    let limit = run.limit;
    let vertices = Vertices {
        s,
        numbers,
        base,
        count: limit,
    };
    let step = bits::bit_width(limit as u32) as usize;
    let mut bit = run.bit;
    let mut last = VertexNumber(0);
    let mut left = run.count as usize;
    let mut to = at;
    // no index is counted here: a turn takes what is drawn at once off what is left, and its bits and words with it
    while 0 < left {
        // as many as are drawn at once, of those that are left
        let n = left.min(64);
        let some = Run {
            bit,
            limit,
            count: n as u32,
        };
        last = vertices.draw_some(some, last, words, to, expanded);
        to += 5 * n;
        bit += n * step;
        left -= n;
    }
}
