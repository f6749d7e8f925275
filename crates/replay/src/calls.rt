// The calls, by what they are lent. Before a call every lent item holds bytes a5. An answer sums up what was lent as
// it is after the call: the words first, then the buffers. Which call is made goes by its number, since the list names
// it so: a closure for each would say the same at greater length.
ghost use Rattle.std.specs.Prelude.{◌≡◌, ◌≤◌, cond, nat_le, IfSome, Some, None};
ghost use Rattle.std.specs.Int.{w64};
ghost use Rattle.std.proofs.Common.{of_z};
ghost use mathlib.Core.List.{flat_map};
ghost use Rattle.bits.specs.Put.{bytes_of};
ghost use Rattle.replay.specs.Sum.{fnv};

mod byte_calls;
mod counts;
mod crops;
mod fields;
mod floats;
mod grids;
mod meshes;
mod numbers;
mod put;
mod records;
mod runs;
mod scene_call;
mod shares;
mod shown;
mod unpack;
mod view;

use crate::call_number::CallNumber;
use crate::item::Item;
use crate::sum;
use capi::meshes::{capi_mesh_records, capi_parse_meshes, capi_texture_points};
use capi::shown::capi_none_shown;

// What a call answered, as 64 bits, and the sum of what it was lent.
#[derive(Clone, Copy, PartialEq)]
pub struct Answer {
    pub code: u64,
    pub sum: u64,
}

impl Answer {
    // The answer of a call that was lent nothing.
    fn new(code: i64) -> Answer
        ensures code { result.code ≡ of_z w64 code }
        ensures sum { result.sum ≡ 0x811c_9dc5 }
    {
        Answer {
            code: code.cast_unsigned(),
            sum: sum::EMPTY,
        }
    }

    // The same answer with more that was lent.
    fn with<T: Item>(self, lent: &[T]) -> Answer
        ensures code { result.code ≡ self.code }
        ensures sum { result.sum ≡ fnv self.sum (flat_map (λ x. bytes_of T.BYTES (T.value x)) lent.now) }
    {
        Answer {
            code: self.code,
            sum: sum::add_items(self.sum, lent),
        }
    }
}

// The words that are lent, as they are before a call.
const WORDS: [u64; 8] = [u64::LENT; 8];

// A length of what is to be lent, where it is no more than there is room for. It is judged before room is made, which
// is filled.
fn within(length: u64, most: usize) -> Option<usize>
    ensures value { result ≡ cond (nat_le length most) (Some length) None }
    ensures bound { IfSome result (λ n. n ≤ most) }
{
    if (most as u64) < length {
        return None;
    }
    Some(length as usize)
}

// A call of a line. Arguments that it has not are 0.
#[derive(Clone, Copy)]
pub struct Call<'a> {
    pub number: CallNumber,
    pub args: [u64; 10],
    pub data: &'a [u8],
}

impl Call<'_> {
    // The calls that are lent nothing.
    fn unlent(&self) -> Answer {
        Answer::new(match self.number.value {
            0x15 => crops::is_usable(self),
            0x1f => grids::padding_share(self),
            0x35 | 0x36 => runs::check(self),
            0x39 => byte_calls::word_of(self),
            0..=0x14 => numbers::unlent(self),
            _ => view::unlent(self),
        })
    }

    // The calls that are lent words alone.
    fn worded(&self) -> Answer {
        let mut words = WORDS;
        let code = match self.number.value {
            0..=0x07 | 0x0b => byte_calls::worded(self, &mut words),
            0x08..=0x0a | 0x34 => fields::worded(self, &mut words),
            0x0d => numbers::stepped(self, &mut words),
            0x16 | 0x18 => crops::parse(self, &mut words),
            0x3d => crops::equi_crop(self, &mut words),
            0x20 | 0x3a => meshes::measure(self, &mut words),
            0x3b | 0x3c => grids::lengths(self, &mut words),
            0x26..=0x29 => counts::worded(self, &mut words),
            _ => view::worded(self, &mut words),
        };
        Answer::new(code).with(&words)
    }

    // The calls that write bytes.
    fn written(&self, length: u64) -> Option<Answer> {
        let n = within(length, 1024)?;
        let mut words = WORDS;
        let mut room = [u8::LENT; 1024];
        let out = &mut room[..n];
        let code = match self.number.value {
            0x13 | 0x14 => put::write(self, out, &mut words),
            _ => crops::write(self, out, &mut words),
        };
        Some(Answer::new(code).with(&words).with(out))
    }

    // The calls that make numbers.
    fn indexed(&self, length: u64) -> Option<Answer> {
        let n = within(length, 4096)?;
        let mut words = WORDS;
        let mut room = [u16::LENT; 4096];
        let out = &mut room[..n];
        let code = grids::indices(self, out, &mut words);
        Some(Answer::new(code).with(&words).with(out))
    }

    // The calls that hand out the numbers of a run, which are lent no words.
    fn run(&self, length: u64) -> Option<Answer> {
        let n = within(length, 4096)?;
        let mut room = [u16::LENT; 4096];
        let out = &mut room[..n];
        let code = runs::fill(self, out);
        Some(Answer::new(code).with(out))
    }

    // The calls that make floats, records, textures or an empty list alone, so many at most. The room is made here: in
    // `make` it would be filled for every line, whatever its call.
    fn tabled(&self, length: u64, most: usize) -> Option<Answer>
        requires { most ≤ 4096 }
    {
        let n = within(length, most)?;
        let mut words = WORDS;
        let mut room = [u32::LENT; 4096];
        let out = &mut room[..n];
        let code = match self.number.value {
            0x22 => capi_mesh_records(self.data, out, &mut words),
            0x3f => capi_texture_points(self.data, out, &mut words),
            0x40 => capi_none_shown(out, &mut words),
            _ => grids::floats(self, out, &mut words),
        };
        Some(Answer::new(code).with(&words).with(out))
    }

    // The calls that make numbers, floats and records.
    fn drawn(&self, number_length: u64, float_length: u64, record_length: u64) -> Option<Answer> {
        let n = within(number_length, 4096)?;
        let f = within(float_length, 4096)?;
        let k = within(record_length, 512)?;
        let mut words = WORDS;
        let mut number_room = [u16::LENT; 4096];
        let mut float_room = [u32::LENT; 4096];
        let mut record_room = [u32::LENT; 512];
        let numbers = &mut number_room[..n];
        let floats = &mut float_room[..f];
        let records = &mut record_room[..k];
        let code = match self.number.value {
            0x21 => capi_parse_meshes(self.data, numbers, floats, records, &mut words),
            _ => scene_call::scene(self, numbers, floats, records, &mut words),
        };
        let answer = Answer::new(code).with(&words);
        Some(answer.with(numbers).with(floats).with(records))
    }

    // Makes the call, where what it is to be lent has room. Which argument is a length goes by the call.
    pub fn make(&self) -> Option<Answer> {
        let args = &self.args;
        match self.number.value {
            0x13 | 0x14 => self.written(args[0]),
            0x17 => self.written(args[4]),
            0x19 => self.written(args[1]),
            0x1a => self.indexed(args[2]),
            0x1b => self.indexed(args[6]),
            0x1d => self.indexed(args[1]),
            0x37 => self.run(args[3]),
            0x38 => self.run(args[2]),
            0x1c => self.tabled(args[2], 4096),
            0x1e => self.tabled(args[3], 4096),
            0x22 | 0x3f | 0x40 => self.tabled(args[0], 512),
            0x21 => self.drawn(args[0], args[1], args[2]),
            0x25 => self.drawn(args[6], args[7], args[8]),
            0x23 | 0x24 => meshes::body(self),
            0x3e => records::triangles(self),
            0x41 | 0x42 => shown::listed(self),
            0x43 => shares::shared(self),
            0x0c | 0x0e..=0x12 | 0x15 | 0x1f | 0x2a | 0x2b | 0x2d | 0x2f | 0x30 | 0x32 | 0x33 => {
                Some(self.unlent())
            }
            0x35 | 0x36 | 0x39 => Some(self.unlent()),
            _ => Some(self.worded()),
        }
    }
}
