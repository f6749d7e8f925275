// Calls 41 and 42: lists of shown submeshes.
use super::unpack::Items;
use super::{Answer, Call, WORDS, within};
use crate::item::Item;
use capi::shown::{capi_hide, capi_show};

fn change(call: &Call, list: &mut [u32], records: &[u32], words: &mut [u64]) -> i64 {
    let [total, count, number, ..] = call.args;
    match call.number.value {
        0x41 => capi_show(
            list,
            u32::low(count),
            total,
            u32::low(number),
            records,
            words,
        ),
        _ => capi_hide(
            list,
            u32::low(count),
            total,
            u32::low(number),
            records,
            words,
        ),
    }
}

// Lends a list, its first entries filled from the data, and records, filled from what follows.
pub fn listed(call: &Call) -> Option<Answer> {
    let [_, _, _, length, given, record_length, ..] = call.args;
    let n = within(length, 512)?;
    let g = within(given, n)?;
    let k = within(record_length, 512)?;
    let mut words = WORDS;
    let mut list_room = [u32::LENT; 512];
    let mut record_room = [u32::LENT; 512];
    let list = &mut list_room[..n];
    let records = &mut record_room[..k];
    let mut items = Items::of(call.data);
    items.fill(&mut list[..g]);
    items.fill(records);
    let code = change(call, list, records, &mut words);
    Some(Answer::new(code).with(&words).with(list))
}
