//! The bytes of a line as text, one line an item: the command `ddcmp explain`, over any source and
//! sink.
#![tactic(auto)]

mod byte_texts;
mod decoder;
mod detection;
mod discards;
pub mod explain_fault;
pub mod explanation;
pub mod form;
mod head;
mod hex_digits;
mod hex_values;
pub mod input_bytes;
mod json;
pub mod label;
pub mod laws;
mod lines;
pub mod notation;
mod opening;
mod put;
mod reasons;
mod skipped;
mod spot;
pub mod style;
mod text;

pub use ddcmp_input::NotDumped;
pub use discards::write_discarded;
pub use explain_fault::ExplainFault;
pub use explanation::{explain, explain_with};
pub use form::{Form, InputForm};
pub use input_bytes::{InputBytes, PIECE};
pub use label::{LABEL_ROOM, label_frame, label_item};
pub use notation::{LinePart, Notation, Totals, write_item, write_last, write_words};
pub use reasons::reason_name;
pub use skipped::{Reached, Skipped, reached_by};
pub use style::Style;
