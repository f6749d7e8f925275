// Call 3e: the records of a drawing.
use super::unpack::Items;
use super::{Answer, Call, WORDS, within};
use crate::item::Item;
use capi::records::capi_triangles;

// Lends records, filled from the data, and numbers to write.
pub fn triangles(call: &Call) -> Option<Answer> {
    let k = within(call.args[0], 512)?;
    let n = within(call.args[1], 4096)?;
    let mut words = WORDS;
    let mut record_room = [u32::LENT; 512];
    let mut room = [u32::LENT; 4096];
    let records = &mut record_room[..k];
    let out = &mut room[..n];
    Items::of(call.data).fill(records);
    let code = capi_triangles(records, out, &mut words);
    Some(Answer::new(code).with(&words).with(out))
}
