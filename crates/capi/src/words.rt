// What calls answer, as words: one way for all values.
ghost use Rattle.std.specs.Prelude.{◌≡◌, ℕ, List};
ghost use Rattle.bits.specs.Verdict.{accepted, needs};
ghost use Rattle.bits.specs.Read.{two_read};
ghost use Rattle.bits.specs.Says.{says, fill_says};
ghost use Rattle.scene.specs.Scene.{named};
ghost use Rattle.capi.specs.Answer.{none, one, two, three};
ghost use Rattle.capi.specs.Reply.{Says};
ghost use Rattle.capi.specs.Scene.{length_words, named_words, scene_words};
ghost use Rattle.capi.specs.Values.{side_words, reading, patch_words, size_words, place_words, table_words};

use super::{Reply, accept, decline, side_words};
use bits::{BitCursor, ByteCursor, FillError, Refusal, Two};
use payload::{
    Bounds, DrawingLengths, EquiFields, GridLengths, ListCounts, MeshListSize, PointFields,
    TableLengths,
};
use scene::{Drawing, Read};

// A value that crosses as words.
pub trait Words {
    ghost words_of: { Self → List ℕ };

    fn accept(self) -> Reply
        ensures { Says result (accepted (words_of self)) };
}

// What a call answered that refuses or gives a value.
pub fn reply<T: Words>(x: Result<T, Refusal>) -> Reply
    ensures { Says result (says T.words_of x) }
{
    match x {
        Ok(value) => value.accept(),
        Err(refusal) => decline(refusal),
    }
}

// The lengths that the buffers need.
pub fn need<L: Words>(lengths: L) -> Reply
    ensures { Says result (needs (L.words_of lengths)) }
{
    let words = lengths.accept();
    Reply { code: -12, ..words }
}

// What a call answered that fills what it is lent.
pub fn fill_reply<T: Words, L: Words>(x: Result<T, FillError<L>>) -> Reply
    ensures { Says result (fill_says T.words_of L.words_of x) }
{
    match x {
        Ok(value) => value.accept(),
        Err(FillError::Needs(lengths)) => need(lengths),
        Err(FillError::Refused(refusal)) => decline(refusal),
    }
}

// ---- numbers

impl Words for () {
    ghost words_of = { none };

    fn accept(self) -> Reply {
        accept(&[])
    }
}

impl Words for u32 {
    ghost words_of = { one };

    fn accept(self) -> Reply {
        accept(&[self as u64])
    }
}

impl Words for u64 {
    ghost words_of = { one };

    fn accept(self) -> Reply {
        accept(&[self])
    }
}

impl Words for usize {
    ghost words_of = { one };

    fn accept(self) -> Reply {
        accept(&[self as u64])
    }
}

// ---- cursors, and what was read before them

impl Words for ByteCursor {
    ghost words_of = { λ c. one c.at };

    fn accept(self) -> Reply {
        accept(&[self.at as u64])
    }
}

impl Words for (u8, ByteCursor) {
    ghost words_of = { λ x. two (x.0, x.1.at) };

    fn accept(self) -> Reply {
        let (value, next) = self;
        accept(&[value as u64, next.at as u64])
    }
}

impl Words for (u32, ByteCursor) {
    ghost words_of = { λ x. two (x.0, x.1.at) };

    fn accept(self) -> Reply {
        let (value, next) = self;
        accept(&[value as u64, next.at as u64])
    }
}

impl Words for (u32, BitCursor) {
    ghost words_of = { λ x. two (x.0, x.1.bit) };

    fn accept(self) -> Reply {
        let (value, next) = self;
        accept(&[value as u64, next.bit as u64])
    }
}

impl Words for (Two, BitCursor) {
    ghost words_of = { λ x. three (two_read x) };

    fn accept(self) -> Reply {
        let (two, next) = self;
        accept(&[two.a as u64, two.b as u64, next.bit as u64])
    }
}

// ---- crops

impl Words for Bounds {
    ghost words_of = { side_words };

    fn accept(self) -> Reply {
        accept(&side_words(self))
    }
}

impl Words for Option<Bounds> {
    ghost words_of = { patch_words };

    fn accept(self) -> Reply {
        match self {
            Some(bounds) => bounds.accept(),
            None => accept(&[]),
        }
    }
}

impl Words for (EquiFields, Bounds) {
    ghost words_of = { reading };

    fn accept(self) -> Reply {
        let (f, bounds) = self;
        let [top, bottom, left, right] = side_words(bounds);
        accept(&[
            f.t as u64, f.b as u64, f.l as u64, f.r as u64, top, bottom, left, right,
        ])
    }
}

// ---- mesh lists, mesh bodies and grids

impl Words for MeshListSize {
    ghost words_of = { size_words };

    fn accept(self) -> Reply {
        accept(&[
            self.meshes as u64,
            self.submeshes as u64,
            self.points as u64,
            self.numbers as u64,
            self.floats as u64,
            self.records as u64,
        ])
    }
}

impl Words for ListCounts {
    ghost words_of = { λ n. three (n.meshes, n.submeshes, n.points) };

    fn accept(self) -> Reply {
        accept(&[
            self.meshes as u64,
            self.submeshes as u64,
            self.points as u64,
        ])
    }
}

impl Words for PointFields {
    ghost words_of = { place_words };

    fn accept(self) -> Reply {
        let run = self.run;
        accept(&[
            self.body as u64,
            self.end as u64,
            run.bit as u64,
            run.limit as u64,
            run.count as u64,
        ])
    }
}

impl Words for TableLengths {
    ghost words_of = { table_words };

    fn accept(self) -> Reply {
        accept(&[
            self.pool as u64,
            self.coordinates as u64,
            self.submeshes as u64,
            self.points as u64,
        ])
    }
}

impl Words for GridLengths {
    ghost words_of = { λ n. two (n.numbers, n.floats) };

    fn accept(self) -> Reply {
        accept(&[self.numbers as u64, self.floats as u64])
    }
}

impl Words for DrawingLengths {
    ghost words_of = { length_words };

    fn accept(self) -> Reply {
        accept(&[self.numbers as u64, self.floats as u64, self.records as u64])
    }
}

// ---- drawings

// The kind of what was read, and its four words.
fn read_words(read: Read) -> [u64; 5]
    ensures { result ≡ named_words (named read) }
{
    match read {
        Read::Crop(bounds) => {
            let [top, bottom, left, right] = side_words(bounds);
            [0, top, bottom, left, right]
        }
        Read::Padding(pixels) => [1, pixels as u64, 0, 0, 0],
        Read::Meshes(n) => [2, n.meshes as u64, n.submeshes as u64, n.points as u64, 0],
    }
}

impl Words for Drawing {
    ghost words_of = { λ d. scene_words (named d.read, d.lengths) };

    fn accept(self) -> Reply {
        let [kind, a, b, c, d] = read_words(self.read);
        let n = self.lengths;
        accept(&[
            kind,
            a,
            b,
            c,
            d,
            n.numbers as u64,
            n.floats as u64,
            n.records as u64,
        ])
    }
}
