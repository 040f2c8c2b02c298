//! Why a file holds no events.

use js_core::Failure;

/// The bytes are no list of events. The number is 0 where they are no JSON array, else that of the first item, counted from
/// 1, that is no event or is item 100,001.
#[derive(Clone, Copy, PartialEq, Eq)]
pub struct NotEvents(pub u32);

/// Why a file holds no list of events: the bytes are none, or memory ran out.
pub type EventFault = Failure<NotEvents>;
