// A line of the list: its call, its arguments, its data, and the answer that is due.
ghost use Rattle.std.specs.Prelude.{◌≡◌, ◌≤◌, IfSome, length};
ghost use Rattle.replay.specs.Line.{judged};

use crate::call_number::CallNumber;
use crate::calls::{Answer, Call};
use crate::text::Tokens;

// What a line is, and its call.
#[derive(Clone, Copy)]
pub enum Judgement {
    Comment,
    Unreadable,
    Same(CallNumber),
    Different(CallNumber),
}

// How many arguments a call has.
fn argument_count(call: usize) -> u64 {
    match call {
        0x01 | 0x16 | 0x18 | 0x20 | 0x3a => 0,
        0x04 | 0x05 | 0x0a | 0x0d | 0x19 | 0x1d | 0x1f | 0x26 | 0x27 | 0x2c | 0x2e => 2,
        0x34 | 0x3e => 2,
        0x0e | 0x13 | 0x1a | 0x1c | 0x21 | 0x35 | 0x36 | 0x38 | 0x3c | 0x43 => 3,
        0x14 | 0x15 | 0x1e | 0x23 | 0x37 | 0x39 | 0x3d => 4,
        0x17 | 0x24 => 5,
        0x3b | 0x41 | 0x42 => 6,
        0x1b => 7,
        0x25 => 9,
        _ => 1,
    }
}

// How many of a call's first arguments may have 64 bits: places, bits and totals. The others have 32.
fn wide_arguments(call: usize) -> usize {
    match call {
        0x04 | 0x05 | 0x13 | 0x14 => 2,
        0x02 | 0x03 | 0x06..=0x0b | 0x34..=0x38 | 0x41 | 0x42 => 1,
        _ => 0,
    }
}

// Reads the number of arguments, which has to be the call's, and the arguments. The first `wide` of them may have 64
// bits.
fn read_arguments(tokens: &mut Tokens, call: usize) -> Option<[u64; 10]> {
    let count = tokens.number()?;
    if count != argument_count(call) {
        return None;
    }
    let wide = wide_arguments(call);
    let mut args = [0; 10];
    for (i, arg) in args.iter_mut().take(count as usize).enumerate() {
        *arg = tokens.number()?;
        if wide <= i && 0xffff_ffff < *arg {
            return None;
        }
    }
    Some(args)
}

// Reads a line that is no comment. Its data is stored in the room.
fn read_line<'a>(line: &[u8], room: &'a mut [u8]) -> Option<(Call<'a>, Answer)>
    ensures { IfSome result (λ x. length x.0.data.now ≤ length room.old) }
{
    let mut tokens = Tokens::of(line);
    let number = CallNumber::new(tokens.number()?)?;
    let args = read_arguments(&mut tokens, number.value)?;
    let data = tokens.bytes(room)?;
    let code = tokens.number()?;
    let sum = tokens.number()?;
    Some((Call { number, args, data }, Answer { code, sum }))
}

// Whether the outcome of a call is the due one.
#[tactic(auto, unfolding(crate::specs::Line::judged))]
fn compared(call: CallNumber, due: Answer, made: Option<Answer>) -> Judgement
    ensures { result ≡ judged call due made }
{
    match made {
        None => Judgement::Unreadable,
        Some(made) if made == due => Judgement::Same(call),
        Some(_) => Judgement::Different(call),
    }
}

// Makes the call of a line again.
fn replayed(line: &[u8]) -> Judgement {
    let mut room = [0u8; 2048];
    match read_line(line, &mut room) {
        None => Judgement::Unreadable,
        Some((call, due)) => compared(call.number, due, call.make()),
    }
}

pub fn judge(line: &[u8]) -> Judgement {
    match line.first() {
        Some(b'#') => Judgement::Comment,
        _ => replayed(line),
    }
}
