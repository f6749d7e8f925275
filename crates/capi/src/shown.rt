// The calls on lists of shown submeshes. A list crosses as a lent buffer, of which the first 64 entries are its array,
// and its count and total; the words of an answer that changed it are the count and the total that it has then, and the
// list is changed whether or not they fit: lend two at least. A buffer of fewer entries is refused with 12 before
// anything is judged.
ghost use Rattle.std.specs.Prelude.{◌≡◌, ◌≤◌, [], ◌∷◌, length};
ghost use Rattle.bits.specs.Verdict.{accepted, mapped};
ghost use Rattle.payload.specs.Lent.{◌onto◌, answer_for, buffers_after, at_entry};
ghost use Rattle.display.specs.ShownRules.{showing, hiding};
ghost use Rattle.display.specs.ShownKept.{change_says};
ghost use Rattle.capi.specs.Answer.{code_of, words_after, two};
ghost use Rattle.capi.specs.Reply.{Says};
ghost use Rattle.capi.specs.ShownLists.{list_of, none_plan, list_called, entries_after};

use super::words::need;
use super::{Reply, accept, decline, hand_out};
use display::{Shown, ShownAnswer};

// Puts a list's entries into a buffer from place 0 on.
fn put_entries(list: &mut [u32], entries: &[u32; 64])
    requires { 64 ≤ length list.old }
    ensures { list.new ≡ entries.now onto list.old }
{
    list[..64].copy_from_slice(entries);
}

fn list_of(list: &[u32], count: u32, total: u64) -> Shown
    requires { 64 ≤ length list.now }
    ensures { result ≡ list_of list.now count total }
{
    let mut entries = [0u32; 64];
    entries.copy_from_slice(&list[..64]);
    Shown {
        entries,
        count,
        total,
    }
}

// A list as an answer, and its entries in the buffer.
fn put_list(shown: Shown, list: &mut [u32]) -> Reply
    requires { 64 ≤ length list.old }
    ensures answer { Says result (accepted (two (shown.count, shown.total))) }
    ensures buffer { list.new ≡ shown.entries onto list.old }
{
    put_entries(list, &shown.entries);
    accept(&[shown.count as u64, shown.total])
}

fn of_shown(x: ShownAnswer, list: &mut [u32]) -> Reply
    requires { 64 ≤ length list.old }
    ensures answer { Says result (mapped (λ u. two (x.shown.count, x.shown.total)) (change_says x.answer)) }
    ensures buffer { list.new
        ≡ entries_after (change_says x.answer) x.shown list.old }
{
    match x.answer {
        Ok(()) => put_list(x.shown, list),
        Err(refusal) => decline(refusal),
    }
}

pub fn capi_none_shown(list: &mut [u32], words: &mut [u64]) -> i64
    ensures answer { result ≡ code_of (mapped two (answer_for (accepted none_plan) (at_entry (list ∷ [])))) }
    ensures words { words.new
        ≡ words_after words.old (mapped two (answer_for (accepted none_plan) (at_entry (list ∷ [])))) }
    ensures buffers { list.new ∷ [] ≡ buffers_after (accepted none_plan) (at_entry (list ∷ [])) }
{
    if list.len() < 64 {
        return hand_out(words, need(64_usize));
    }
    hand_out(words, put_list(display::none_shown(), list))
}

pub fn capi_show(
    list: &mut [u32],
    count: u32,
    total: u64,
    number: u32,
    records: &[u32],
    words: &mut [u64],
) -> i64
    ensures answer { result ≡ code_of (mapped two
        (answer_for (list_called records.now list.old count total (showing number))
        (at_entry (list ∷ [])))) }
    ensures words { words.new ≡ words_after words.old (mapped two
        (answer_for (list_called records.now list.old count total (showing number))
        (at_entry (list ∷ [])))) }
    ensures buffers { list.new ∷ []
        ≡ buffers_after (list_called records.now list.old count total (showing number))
        (at_entry (list ∷ [])) }
{
    if list.len() < 64 {
        return hand_out(words, need(64_usize));
    }
    let answer = display::show(list_of(list, count, total), number, records);
    hand_out(words, of_shown(answer, list))
}

pub fn capi_hide(
    list: &mut [u32],
    count: u32,
    total: u64,
    number: u32,
    records: &[u32],
    words: &mut [u64],
) -> i64
    ensures answer { result ≡ code_of (mapped two
        (answer_for (list_called records.now list.old count total (hiding number))
        (at_entry (list ∷ [])))) }
    ensures words { words.new ≡ words_after words.old (mapped two
        (answer_for (list_called records.now list.old count total (hiding number))
        (at_entry (list ∷ [])))) }
    ensures buffers { list.new ∷ []
        ≡ buffers_after (list_called records.now list.old count total (hiding number))
        (at_entry (list ∷ [])) }
{
    if list.len() < 64 {
        return hand_out(words, need(64_usize));
    }
    let answer = display::hide(list_of(list, count, total), number, records);
    hand_out(words, of_shown(answer, list))
}
