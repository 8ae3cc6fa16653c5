// The answer table: a hash whose answers stand in a table, by tweak and colour.

ghost use Rattle.std.specs.Prelude.{◌≡◌};
ghost use Rattle.label.specs.Rows.{table_function};

use crate::hash::{Answer, Hash};
use crate::labels::{Label, colour};
use slices::item_or;

// The answers for one tweak: for labels of colour 0 and of colour 1.
#[derive(Clone, Copy, Default)]
pub struct Row {
    pub zero: Answer,
    pub one: Answer,
}

// Rows by tweak, the first for tweak 0; past the last row all answers are zero.
#[derive(Clone, Copy)]
pub struct AnswerTable<'a> {
    pub rows: &'a [Row],
}

impl Hash for AnswerTable<'_> {
    ghost function = { λ t. table_function t.rows.now };

    ghost asks = { λ before _ _ after. after.rows.now ≡ before.rows.now };

    fn query(&mut self, label: Label, tweak: u32) -> Answer {
        let row = item_or(self.rows, tweak as usize, Row::default());
        if colour(label) { row.one } else { row.zero }
    }
}
