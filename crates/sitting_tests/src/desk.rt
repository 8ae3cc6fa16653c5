// What the tests open with: the sample table and tape, an answer table, and the buffers.

use label::{Answer, AnswerTable, ControlPair, Row};
use ledger::Ledger;
use opening::{OpenSitting, Tape, open};
use refusal::Refusal;
use std::array;

// An AND of one wire a side: wires 0 and 1 are inputs of sides 0 and 1, wire 2 is the output.
pub(crate) const TABLE: [u8; 19] = [3, 0, 2, 0, 0, 1, 0xa8, 0, 0, 0, 0, 0, 0, 0, 0, 0, 0, 1, 0];

// The offset (1, 2), the labels (16, 32) and (64, 128), permute bits 0 and 1, and no dice.
pub(crate) const TAPE: [u8; 51] = [
    1, 0, 0, 0, 0, 0, 0, 0, 2, 0, 0, 0, 0, 0, 0, 0, 16, 0, 0, 0, 0, 0, 0, 0, 32, 0, 0, 0, 0, 0, 0,
    0, 0, 64, 0, 0, 0, 0, 0, 0, 0, 128, 0, 0, 0, 0, 0, 0, 0, 1, 0,
];

// The answer for a number: 256 times it, and its two low bits.
// The program `vectors` has these rows too: it cannot use a crate of tests, and no library call needs a sample.
fn answer(number: u16) -> Answer {
    Answer {
        word: 256 * u64::from(number),
        pair: ControlPair::in_bits(u64::from(number)),
    }
}

// Row r has the answers for the numbers 2r and 2r + 1.
pub(crate) fn sample_rows() -> [Row; 17] {
    array::from_fn(|r| Row {
        zero: answer(2 * r as u16),
        one: answer(2 * r as u16 + 1),
    })
}

// Number and place of a refusal; 0, 0 where the call is done: a pair, as the tests state their values, and in each crate of
// tests, for these share no code and no other caller wants a pair.
pub(crate) fn told<T: Drop>(answer: Result<T, Refusal>) -> (u8, u32) {
    answer
        .err()
        .map_or((0, 0), |refusal| (refusal.number(), refusal.place()))
}

// The buffers that an opening is lent, by their lengths, full of other numbers; and a place of the tape.
#[derive(Drop)]
pub(crate) struct Desk<
    const FORM: usize,
    const STORE: usize,
    const SHEET: usize,
    const WORK: usize,
> {
    pub place: usize,
    pub form: [u8; FORM],
    pub store: [u64; STORE],
    pub sheet: [u8; SHEET],
    pub ledger: Ledger,
    pub work: [u64; WORK],
}

// With buffers that fit the sample table.
pub(crate) type Fitting = Desk<81, 6, 36, 6>;

impl<const FORM: usize, const STORE: usize, const SHEET: usize, const WORK: usize> Desk<
    FORM,
    STORE,
    SHEET,
    WORK,
> {
    pub(crate) fn at(place: usize) -> Self {
        Desk {
            place,
            form: [0xee; FORM],
            store: [0xeeee; STORE],
            sheet: [0xee; SHEET],
            ledger: Ledger::new(),
            work: [0xeeee; WORK],
        }
    }

    // Opens from the place of the tape; the place is the one after.
    pub(crate) fn open(
        &mut self,
        side: u32,
        table: &[u8],
        bytes: &[u8],
        rows: &[Row],
    ) -> Result<OpenSitting, Refusal> {
        let mut hash = AnswerTable { rows };
        let mut tape = Tape {
            bytes,
            place: self.place,
        };
        let opened = open(
            side,
            table,
            &mut tape,
            &mut hash,
            &mut self.form,
            &mut self.store,
            &mut self.sheet,
            &mut self.ledger,
            &mut self.work,
        );
        self.place = tape.place;
        opened
    }
}
