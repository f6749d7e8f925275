// A frame's points shared out among windows: by turns, worked out by levels.
ghost use Rattle.std.specs.Prelude.{◌≡◌, true, [], ◌∷◌, ◌≤◌, length};
ghost use Rattle.std.proofs.lemmas.List.Edits.{sets};
ghost use Rattle.payload.specs.MeshWrite.{all_below};
ghost use Rattle.payload.specs.Fill.{filled_says};
ghost use Rattle.payload.specs.Lent.{in_items, answer_for, buffers_after, at_entry};
ghost use Rattle.display.specs.Turns.{after_turn, shared, shareable, sharing};
ghost use Rattle.display.specs.InternalLevels.{up_to, unmet_at, lowest_above};

use bits::{FillError, Refusal};
use payload::Filled;

// How many wishes are above a level.
fn unmet(wishes: &[u32], level: u32) -> u32
    requires { length wishes.now ≤ 8 }
    ensures { result ≡ unmet_at level wishes.now }
{
    let mut count = 0;
    for wish in wishes {
        if level < *wish {
            count += 1;
        }
    }
    count
}

// The lowest wish above a level; 1,000,000 where there is none.
fn lowest(wishes: &[u32], level: u32) -> u32
    ensures { result ≡ lowest_above level wishes.now }
{
    let mut low: u32 = 1_000_000;
    for wish in wishes {
        if level < *wish {
            low = low.min(*wish);
        }
    }
    low
}

// After whole turns every window has its wish up to the height, and so many points are left for the last turn.
#[derive(Clone, Copy)]
struct Level {
    height: u32,
    left: u32,
}

// Rises from wish to wish as far as the points go: each round but the last meets a wish.
fn level_of(points: u32, wishes: &[u32]) -> Level
    requires { (length wishes.now ≤ 8) × (all_below 1000000 wishes.now ≡ true) }
    ensures { shared points wishes.now
        ≡ after_turn result.left wishes.now (up_to result.height wishes.now) }
{
    let mut height = 0;
    let mut left = points;
    // no index is counted here: a round goes to the next wish by height, wherever it stands in the list
    loop {
        let takers = unmet(wishes, height);
        if takers == 0 {
            return Level { height, left };
        }
        let rise = lowest(wishes, height) - height;
        let whole = left / takers;
        if whole < rise {
            return Level {
                height: height + whole,
                left: left - whole * takers,
            };
        }
        height += rise;
        left -= rise * takers;
    }
}

// Each wish up to the height, and of the points left one each to the first windows whose wish is above it.
fn deal(height: u32, points: u32, wishes: &[u32], shares: &mut [u32])
    requires { length wishes.now ≤ length shares.old }
    ensures { shares.new
        ≡ sets shares.old 0
        (after_turn points wishes.now (up_to height wishes.now)) }
{
    let mut left = points;
    for (i, wish) in wishes.iter().enumerate() {
        let mut share = height;
        if *wish <= height {
            share = *wish;
        } else if 0 < left {
            share += 1;
            left -= 1;
        }
        shares[i] = share;
    }
}

// Every number is below a million.
fn all_in_range(numbers: &[u32]) -> bool
    ensures { result ≡ all_below 1000000 numbers.now }
{
    numbers
        .iter()
        .fold(true, |all, number| all & (*number < 1_000_000))
}

// One to eight windows, and every number below a million.
fn shareable(points: u32, wishes: &[u32]) -> bool
    ensures { result ≡ shareable points wishes.now }
{
    1 <= wishes.len() && wishes.len() <= 8 && points < 1_000_000 && all_in_range(wishes)
}

// Shares points out among wishes, at the front of a buffer: 26, then 12.
pub fn share_points(points: u32, wishes: &[u32], shares: &mut [u32]) -> Filled
    ensures answer { filled_says result
        ≡ answer_for (in_items 1 (sharing points wishes.now)) (at_entry (shares ∷ [])) }
    ensures buffers { shares.new ∷ []
        ≡ buffers_after (in_items 1 (sharing points wishes.now)) (at_entry (shares ∷ [])) }
{
    let windows = wishes.len();
    if !shareable(points, wishes) {
        return Err(FillError::Refused(Refusal::Shares));
    }
    if shares.len() < windows {
        return Err(FillError::Needs(windows));
    }
    let level = level_of(points, wishes);
    deal(level.height, level.left, wishes, shares);
    Ok(windows)
}
