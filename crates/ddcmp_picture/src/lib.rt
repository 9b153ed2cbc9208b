//! Pictures of a run: draws what the lines of a script do between two stations, as a ladder of text
//! or as a time-sequence diagram in SVG.
//!
//! ```text
//! |-- DATA 1 resp=0 (3 bytes) ----->                                           |
//! |                                           ----- DATA 1 resp=0 (3 bytes) -->|
//! ```
#![tactic(auto)]

mod arrow;
mod canvas;
mod caption;
mod drawing;
mod elements;
mod endings;
mod flights;
mod labels;
mod ladder;
mod lettering;
mod mark;
mod notes;
mod paper;
mod player;
mod replies;
mod request;
mod script_view;
mod short_text;
mod states;
mod svg;

pub use canvas::Picture;
pub use drawing::Drawing;
pub use mark::{Mark, Trip, TripEnd};
pub use paper::Paper;
pub use player::{DrawOptions, draw};
pub use short_text::ShortText;
