// The entries of the panel, each asked what a record asks. Their numbers are the record's second string, eight bytes each. A panel that is changed is the
// lent buffer, and one that is only read is the first string. Document 02, A2.
use crate::entries::{Given, told};
use crate::record::{byte, eight, first, four, second};
use state::STATE;

// The operation that a record names, done on the panel that is lent.
pub fn edited(r: &[u8], lent: &mut [u8]) -> Option<Given> {
    let state = <&mut [u8; STATE]>::try_from(lent).ok()?;
    let s = second(r);
    match byte(r, 0) {
        8 => Some(told(panel::make(state, eight(s, 0), eight(s, 8)))),
        9 => {
            panel::clear(state);
            Some(Given::from(()))
        }
        10 => Some(told(panel::add(state, eight(s, 0), eight(s, 8), byte(s, 16)))),
        11 => Some(told(panel::drop(state, eight(s, 0)))),
        12 => Some(told(panel::shift(state, eight(s, 0), eight(s, 8), eight(s, 16)))),
        _ => None,
    }
}

pub fn signed(r: &[u8]) -> Option<Given> {
    let state = <&[u8; STATE]>::try_from(first(r)).ok()?;
    Some(Given::from(panel::red(state)))
}

pub fn routed(r: &[u8], lent: &mut [u8]) -> Option<Given> {
    let state = <&[u8; STATE]>::try_from(first(r)).ok()?;
    Some(told(editor::route_panel(state, four(r, 7), four(r, 11), lent)))
}
