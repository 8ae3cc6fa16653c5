// A whole circuit garbled and evaluated, wire by wire, over lent words.
#![tactic(auto)]

mod evaluate;
mod garble;
mod marks;
mod tape;
mod words;

pub use evaluate::evaluate_wire;
pub use garble::{MadeWire, garble_wire};
pub use marks::{Mark, query_mark, query_marks, same_mark};
pub use tape::{draw_offset, tape_need};
pub use words::{keep_label, label_below};
