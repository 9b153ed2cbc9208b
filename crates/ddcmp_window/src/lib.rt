//! Messages in a window: those that are queued until they are acknowledged, and those that were
//! received in sequence.
#![tactic(auto)]

mod inbox;
mod ring_store;
mod sender;
mod slot_store;
mod store;

pub use ddcmp_num::{MAX_COUNT, MAX_WINDOW, Seq};
pub use inbox::{Inbox, Offer};
pub use ring_store::RingStore;
pub use sender::{SendRefusal, Sender};
pub use slot_store::SlotStore;
pub use store::{Memory, Store};
