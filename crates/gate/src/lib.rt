// One gate of the garbled circuit: garbled by a school, evaluated by the server.
#![tactic(auto)]

mod evaluate;
mod garble;
mod labels;
mod numbers;
mod views;

pub use evaluate::{evaluate_gate, free_gate};
pub use garble::{GarbledGate, SentGate, garble_gate};
pub use labels::{Colours, LabelPair, shift};
pub use numbers::{add_back, gate_numbers};
pub use views::{Dice, Gate, Parity, Truth, View, draw_views};
