// Opening a sitting: from a circuit table and a random tape to form, store, sheet and ledger.
#![tactic(auto)]

mod fill;
mod gates;
mod marks;
mod room;
mod rows;
mod sitting;
mod tape;

pub use sitting::{OpenSitting, open};
pub use tape::Tape;
