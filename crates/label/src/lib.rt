// Labels, the sums that the scheme is made of, and the hash: what garbling and evaluating stand on.
#![tactic(auto)]

mod hash;
mod labels;
mod rows;
mod xor;

pub use hash::{Answer, Hash};
pub use labels::{Label, colour, label_at, to_bytes};
pub use rows::{AnswerTable, Row};
pub use xor::{ControlPair, Xor};
