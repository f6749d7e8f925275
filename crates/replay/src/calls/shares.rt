// Call 43: a frame's points shared out.
use super::unpack::Items;
use super::{Answer, Call, WORDS};
use crate::item::Item;
use capi::shares::capi_share_points;

// Lends wishes, filled from the data, and shares to write.
pub fn shared(call: &Call) -> Option<Answer> {
    let [points, wish_count, share_count, ..] = call.args;
    let mut words = WORDS;
    let mut wish_room = [u32::LENT; 16];
    let mut share_room = [u32::LENT; 16];
    let wishes = wish_room.get_mut(..wish_count as usize)?;
    let shares = share_room.get_mut(..share_count as usize)?;
    Items::of(call.data).fill(wishes);
    let code = capi_share_points(u32::low(points), wishes, shares, &mut words);
    Some(Answer::new(code).with(&words).with(shares))
}
