// Circuit tables: checked, run in the clear, and stripped to their public part.
#![tactic(auto)]

mod check;
mod plain;
mod publish;
mod table;

pub use check::{
    MOST_INPUTS, MOST_OUTPUTS, MOST_WIRES, SIDES, TruthRule, check_outputs, check_sizes,
    check_wires,
};
pub use plain::run_plain;
pub use publish::{public_arrays, public_byte, public_table};
pub use table::Table;
