// The calls on lists of shown submeshes. A list crosses as a lent buffer, of which the first 64 entries are its array,
// and its count and total; the words of an answer that changed it are the count and the total that it has then, and the
// list is changed whether or not they fit: lend two at least. A buffer of fewer entries is refused with 12 before
// anything is judged.
ghost use Rattle.std.specs.Prelude.{◌≡◌, [], ◌∷◌};
ghost use Rattle.bits.specs.Verdict.{accepted, mapped};
ghost use Rattle.payload.specs.Lent.{answer_for, buffers_after, at_entry};
ghost use Rattle.display.specs.ShownRules.{showing, hiding};
ghost use Rattle.capi.specs.Answer.{code_of, words_after, two};
ghost use Rattle.capi.specs.ShownLists.{none_plan, list_called};

#[unsafe(no_mangle)]
pub extern "C" fn capi_none_shown(list: &mut [u32], words: &mut [u64]) -> i64
    ensures answer { result ≡ code_of (mapped two (answer_for (accepted none_plan) (at_entry (list ∷ [])))) }
    ensures words { words.new
        ≡ words_after words.old (mapped two (answer_for (accepted none_plan) (at_entry (list ∷ [])))) }
    ensures buffers { list.new ∷ [] ≡ buffers_after (accepted none_plan) (at_entry (list ∷ [])) }
{
    capi::shown::capi_none_shown(list, words)
}

#[unsafe(no_mangle)]
pub extern "C" fn capi_show(
    list: &mut [u32],
    count: u32,
    total: u64,
    number: u32,
    records: &[u32],
    words: &mut [u64],
) -> i64
    ensures answer { result ≡ code_of (mapped two
        (answer_for (list_called records.now list.old count total (showing number))
        (at_entry (list ∷ [])))) }
    ensures words { words.new ≡ words_after words.old (mapped two
        (answer_for (list_called records.now list.old count total (showing number))
        (at_entry (list ∷ [])))) }
    ensures buffers { list.new ∷ []
        ≡ buffers_after (list_called records.now list.old count total (showing number))
        (at_entry (list ∷ [])) }
{
    capi::shown::capi_show(list, count, total, number, records, words)
}

#[unsafe(no_mangle)]
pub extern "C" fn capi_hide(
    list: &mut [u32],
    count: u32,
    total: u64,
    number: u32,
    records: &[u32],
    words: &mut [u64],
) -> i64
    ensures answer { result ≡ code_of (mapped two
        (answer_for (list_called records.now list.old count total (hiding number))
        (at_entry (list ∷ [])))) }
    ensures words { words.new ≡ words_after words.old (mapped two
        (answer_for (list_called records.now list.old count total (hiding number))
        (at_entry (list ∷ [])))) }
    ensures buffers { list.new ∷ []
        ≡ buffers_after (list_called records.now list.old count total (hiding number))
        (at_entry (list ∷ [])) }
{
    capi::shown::capi_hide(list, count, total, number, records, words)
}
