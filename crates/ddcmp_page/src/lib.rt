//! What a page of a browser calls: `explain` and its ladder, the bytes that an input encodes, and
//! the scripts of `simulate`, all over memory. The stations of a page are those of the C library.
#![tactic(auto)]

mod codes;
mod decoding;
mod explaining;
mod laddering;
mod output;
mod playing;
