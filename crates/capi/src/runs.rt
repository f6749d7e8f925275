// The calls on runs of delta fields: judging a run, and handing out the numbers of one that was judged before.
ghost use Rattle.std.specs.Prelude.{◌≡◌, ◌*◌, [], ◌∷◌, length};
ghost use Rattle.bits.specs.Verdict.{limited, mapped};
ghost use Rattle.bits.specs.Number.{width_of};
ghost use Rattle.bits.specs.Run.{zeros, read_run, judged, run_there, run_filled, fives_there, fives_filled};
ghost use Rattle.capi.specs.Answer.{code_of, none, truth};

use super::words::reply;
use super::{flag, hand_out};
use bits::Run;

pub fn capi_check_run(s: &[u8], bit: usize, limit: u16, count: u32) -> i64
    ensures { result ≡ code_of (mapped none (limited s.now
        (judged (read_run s.now (width_of limit) limit count bit (zeros 1))))) }
{
    hand_out(
        &mut [],
        reply(bits::check_run(s, Run { bit, limit, count })),
    )
}

pub fn capi_check_fives(s: &[u8], bit: usize, limit: u16, count: u32) -> i64
    ensures { result ≡ code_of (mapped none (limited s.now
        (judged (read_run s.now (width_of limit) limit (5 * count) bit (zeros 5))))) }
{
    hand_out(
        &mut [],
        reply(bits::check_fives(s, Run { bit, limit, count })),
    )
}

pub fn capi_fill_run(s: &[u8], bit: usize, width: u32, from: u16, out: &mut [u16]) -> i64
    ensures answer { result ≡ truth (run_there s.now bit width (length out.old)) }
    ensures numbers { out.new ≡ run_filled s.now bit width (from ∷ []) out.old }
{
    flag(bits::fill_run(s, bit, width, from, out))
}

pub fn capi_fill_fives(s: &[u8], bit: usize, width: u32, out: &mut [u16]) -> i64
    ensures answer { result ≡ truth (fives_there s.now bit width out.old) }
    ensures numbers { out.new ≡ fives_filled s.now bit width out.old }
{
    flag(bits::fill_fives(s, bit, width, out))
}
