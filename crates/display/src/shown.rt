// Submeshes shown and hidden: the numbers of the records that are shown, in the order they were shown, and the total
// of their points. The list goes from call to call by value, and each call judges it whole before it changes it.
ghost use Rattle.std.specs.Prelude.{◌≡◌, ◌+◌, ◌≤◌, ◌<◌, length};
ghost use Rattle.std.proofs.lemmas.List.Edits.{sets};
ghost use Rattle.std.proofs.Math.Seq.{slice};
ghost use Rattle.bits.specs.Refusals.{among};
ghost use Rattle.payload.specs.Firsts.{place_of};
ghost use Rattle.payload.specs.Records.{records_in};
ghost use Rattle.display.specs.ShownRules.{showing, hiding, is_record, points_of, changed};
ghost use Rattle.display.specs.ShownKept.{none_shown, shown_numbers, shown_usable, called, change_says, shown_after};
ghost use Rattle.display.specs.InternalShown.{summed_from, sum_says, judged, judged_says, refused};

use super::record_at;
use bits::Refusal;

// The numbers stand at the front of the array; what stands behind them is not looked at, and stays. An array with its
// count, by value: so the C interface hands the list in and out.
#[derive(Clone, Copy)]
pub struct Shown {
    pub entries: [u32; 64],
    pub count: u32,
    pub total: u64,
}

// What a call says, and the list that it hands back: after a refusal, the one that was handed in.
#[derive(Clone, Copy)]
pub struct ShownAnswer {
    pub answer: Result<(), Refusal>,
    pub shown: Shown,
}

// ---- judging

fn is_record(records: &[u32], number: u32) -> bool
    ensures { result ≡ is_record records.now number }
{
    (number as usize) < records.len() / 5
}

fn points_of(records: &[u32], number: u32) -> u32
    requires { number < length (records_in records.now) }
    ensures { result ≡ points_of records.now number }
{
    record_at(records, 5 * (number as usize)).points
}

// The place of a number in a list, or the list's length.
fn place_of(list: &[u32], number: u32) -> usize
    ensures { result ≡ place_of number list.now }
{
    list.iter()
        .position(|shown| *shown == number)
        .unwrap_or(list.len())
}

fn among(list: &[u32], number: u32) -> bool
    ensures { result ≡ among number list.now }
{
    list.contains(&number)
}

// The points of a list together: 19 where it repeats a number or holds one that is no record.
fn sum_of(list: &[u32], records: &[u32]) -> Result<u64, Refusal>
    requires { length list.now ≤ 64 }
    ensures { sum_says result ≡ summed_from records.now 0 list.now }
{
    let mut total: u64 = 0;
    for (i, number) in list.iter().enumerate() {
        if !is_record(records, *number) {
            return Err(Refusal::ListOrNumber);
        }
        if among(&list[i + 1..], *number) {
            return Err(Refusal::ListOrNumber);
        }
        total += points_of(records, *number) as u64;
    }
    Ok(total)
}

impl Shown {
    fn numbers(&self) -> &[u32]
        requires { self.now.count ≤ 64 }
        ensures { result.now ≡ shown_numbers self.now }
    {
        &self.entries[..self.count as usize]
    }

    fn is_usable(&self, records: &[u32]) -> bool
        ensures { result ≡ shown_usable records.now self.now }
    {
        if 64 < self.count {
            return false;
        }
        match sum_of(self.numbers(), records) {
            Ok(points) => self.total == points,
            Err(_) => false,
        }
    }

    // What both calls judge: 19 where the list is not usable or the number is no record, and else the number's place
    // in the list, the count where it is not shown.
    fn judge(&self, number: u32, records: &[u32]) -> Result<usize, Refusal>
        ensures { judged_says result ≡ judged records.now self.now number }
    {
        if !self.is_usable(records) {
            return Err(Refusal::ListOrNumber);
        }
        if !is_record(records, number) {
            return Err(Refusal::ListOrNumber);
        }
        Ok(place_of(self.numbers(), number))
    }
}

fn refuse(refusal: Refusal, shown: Shown) -> ShownAnswer
    ensures { result ≡ refused refusal shown }
{
    ShownAnswer {
        answer: Err(refusal),
        shown,
    }
}

// ---- the calls

// No number is shown.
pub fn none_shown() -> Shown
    ensures { result ≡ none_shown }
{
    Shown {
        entries: [0; 64],
        count: 0,
        total: 0,
    }
}

// Puts a record's number at the end: 19, 21, or the list with it.
pub fn show(shown: Shown, number: u32, records: &[u32]) -> ShownAnswer
    ensures answer { change_says result.answer
        ≡ changed (called records.now shown (showing number)) }
    ensures list { result.shown ≡ shown_after records.now shown (showing number) }
{
    let place = match shown.judge(number, records) {
        Ok(place) => place,
        Err(refusal) => return refuse(refusal, shown),
    };
    let count = shown.count as usize;
    if place < count {
        return refuse(Refusal::ListOrNumber, shown);
    }
    if 64 <= count {
        return refuse(Refusal::ListFull, shown);
    }
    let mut entries = shown.entries;
    entries[count] = number;
    let total = shown.total + points_of(records, number) as u64;
    ShownAnswer {
        answer: Ok(()),
        shown: Shown {
            entries,
            count: shown.count + 1,
            total,
        },
    }
}

// The entries behind a place, up to an end, move up by one. A loop, and no `copy_within`, so that a number that is left
// behind falls to the loop's invariant (must-fail/hole_not_closed.edit).
fn close_up(entries: &mut [u32; 64], place: usize, end: usize)
    requires { (place < end) × (end ≤ 64) × (length entries.old ≡ 64) }
    ensures { entries.new
        ≡ sets entries.old place (slice (place + 1) end entries.old) }
{
    for from in place + 1..end {
        entries[from - 1] = entries[from];
    }
}

// Takes a record's number out, the rest closing up: 19, 20, or the list without it.
pub fn hide(shown: Shown, number: u32, records: &[u32]) -> ShownAnswer
    ensures answer { change_says result.answer
        ≡ changed (called records.now shown (hiding number)) }
    ensures list { result.shown ≡ shown_after records.now shown (hiding number) }
{
    let place = match shown.judge(number, records) {
        Ok(place) => place,
        Err(refusal) => return refuse(refusal, shown),
    };
    let count = shown.count as usize;
    if count <= place {
        return refuse(Refusal::NotShown, shown);
    }
    let mut entries = shown.entries;
    close_up(&mut entries, place, count);
    let left = shown.total - points_of(records, number) as u64;
    ShownAnswer {
        answer: Ok(()),
        shown: Shown {
            entries,
            count: shown.count - 1,
            total: left,
        },
    }
}
