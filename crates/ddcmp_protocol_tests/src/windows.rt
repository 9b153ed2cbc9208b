//! Tests of `ddcmp_window`: stores, a window, an inbox.

mod inboxes;
mod senders;
mod stores;
