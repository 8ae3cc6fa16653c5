// Openings: done byte for byte, and refused with every buffer as it should be.

use crate::desk::{Desk, Fitting, TABLE, TAPE, sample_rows, told};
use circuit::Table;
use label::{Answer, ControlPair, Row};
use std::process::Abort;
use std::test::Fail;

// The form of the sample round: sizes, public kinds and pairs, ciphertexts 306, 435 and 482, control word 64, marks.
const FORM: [u8; 81] = [
    3, 0, 2, 0, 1, 0, 1, 0, 0, 1, 0xa0, 0, 0, 0, 0, 0, 0, 0, 0, 0, 0, 1, 0, 0x32, 1, 0, 0, 0, 0, 0,
    0, 0xb3, 1, 0, 0, 0, 0, 0, 0, 0xe2, 1, 0, 0, 0, 0, 0, 0, 64, 0, 0, 0x1e, 0, 0, 0, 0, 0, 0, 0,
    0x20, 0, 0, 0, 0, 0, 0, 0, 0x1f, 0, 0, 0, 0, 0, 0, 0, 0x21, 0, 0, 0, 0, 0, 0,
];

// Buffers full of other numbers are filled, for either side alike.
#[test]
fn sample_round(rt: HostRuntime) {
    let mut blank = [0; 36];
    blank[0] = 2;
    for side in 0..2u8 {
        let mut desk = Fitting::at(0);
        let opened = desk.open(u32::from(side), &TABLE, &TAPE, &sample_rows());
        assert_eq!(rt; told(opened), (0, 0));
        assert_eq!(rt; desk.form, FORM);
        assert_eq!(rt; desk.store, [1, 2, 16, 32, 65, 130]);
        assert_eq!(rt; desk.sheet, blank);
        assert_eq!(rt; desk.work, [0; 6]);
        assert_eq!(rt; desk.place, 51);
        let ledger = &desk.ledger;
        assert_eq!(rt; ledger.side(), side);
        assert_eq!(rt;
            (ledger.inputs(), ledger.owner(0), ledger.owner(1)),
            (2, 0, 1)
        );
    }
}

// What an opening that is refused tells; all that it was lent is as it was, but the work words are zero.
fn refused<const FORM: usize, const STORE: usize, const SHEET: usize, const WORK: usize>(
    rt: &impl Abort,
    mut desk: Desk<FORM, STORE, SHEET, WORK>,
    side: u32,
    table: &[u8],
    tape: &[u8],
) -> (u8, u32) {
    let start = desk.place;
    let opened = desk.open(side, table, tape, &sample_rows());
    assert_eq!(rt; desk.form, [0xee; FORM]);
    assert_eq!(rt; desk.store, [0xeeee; STORE]);
    assert_eq!(rt; desk.sheet, [0xee; SHEET]);
    assert_eq!(rt; desk.work, [0; WORK]);
    assert_eq!(rt; (desk.place, desk.ledger.inputs()), (start, 0));
    told(opened)
}

// A byte too little, from a place on or from a place past the end: the place stays where it was.
#[test]
fn tape_too_short(rt: HostRuntime) {
    assert_eq!(rt;
        refused(&rt, Fitting::at(0), 0, &TABLE, &TAPE[..50]),
        (31, 0)
    );
    assert_eq!(rt; refused(&rt, Fitting::at(1), 1, &TABLE, &TAPE), (31, 0));
    assert_eq!(rt; refused(&rt, Fitting::at(51), 0, &TABLE, &TAPE), (31, 0));
    assert_eq!(rt; refused(&rt, Fitting::at(99), 0, &TABLE, &TAPE), (31, 0));
    assert_eq!(rt; refused(&rt, Fitting::at(0), 0, &TABLE, &[]), (31, 0));
}

// Each length wrong alone, and two together: the lowest is named.
#[test]
fn wrong_lengths(rt: HostRuntime) {
    assert_eq!(rt;
        refused(&rt, Desk::<80, 6, 36, 6>::at(0), 0, &TABLE, &TAPE),
        (10, 1)
    );
    assert_eq!(rt;
        refused(&rt, Desk::<82, 6, 36, 6>::at(0), 0, &TABLE, &TAPE),
        (10, 1)
    );
    assert_eq!(rt;
        refused(&rt, Desk::<81, 5, 36, 6>::at(0), 0, &TABLE, &TAPE),
        (10, 2)
    );
    assert_eq!(rt;
        refused(&rt, Desk::<81, 7, 36, 6>::at(0), 0, &TABLE, &TAPE),
        (10, 2)
    );
    assert_eq!(rt;
        refused(&rt, Desk::<81, 6, 35, 6>::at(0), 0, &TABLE, &TAPE),
        (10, 3)
    );
    assert_eq!(rt;
        refused(&rt, Desk::<81, 6, 37, 6>::at(0), 0, &TABLE, &TAPE),
        (10, 3)
    );
    assert_eq!(rt;
        refused(&rt, Desk::<81, 6, 36, 5>::at(0), 0, &TABLE, &TAPE),
        (10, 4)
    );
    assert_eq!(rt;
        refused(&rt, Desk::<81, 6, 36, 0>::at(0), 0, &TABLE, &TAPE),
        (10, 4)
    );
    assert_eq!(rt;
        refused(&rt, Desk::<80, 6, 36, 7>::at(0), 0, &TABLE, &TAPE),
        (10, 1)
    );
    assert_eq!(rt;
        refused(&rt, Desk::<81, 6, 35, 7>::at(0), 0, &TABLE, &TAPE),
        (10, 3)
    );
}

// A side that is none is named before a bad table, a bad table before a short tape.
#[test]
fn order_of_refusals(rt: HostRuntime) {
    let mut bad = TABLE;
    bad[6] = 0xa9;
    assert_eq!(rt; refused(&rt, Fitting::at(0), 2, &bad, &TAPE[..50]), (11, 0));
    assert_eq!(rt; refused(&rt, Fitting::at(0), 1, &bad, &TAPE[..50]), (7, 2));
}

// Under a hash that answers zero the two marks are equal: everything is zero or empty.
#[test]
fn equal_marks(rt: HostRuntime) -> Result<(), Fail> {
    let blank = Answer {
        word: 0,
        pair: ControlPair {
            low: false,
            high: false,
        },
    };
    let rows = [Row {
        zero: blank,
        one: blank,
    }; 17];
    let mut desk = Fitting::at(0);
    desk.ledger.fill(1, &Table::check(&TABLE)?.circuit());
    assert_eq!(rt; told(desk.open(0, &TABLE, &TAPE, &rows)), (36, 2));
    assert_eq!(rt; desk.form, [0; 81]);
    assert_eq!(rt; desk.store, [0; 6]);
    assert_eq!(rt; desk.sheet, [0; 36]);
    assert_eq!(rt; desk.work, [0; 6]);
    assert_eq!(rt;
        (desk.place, desk.ledger.side(), desk.ledger.inputs()),
        (0, 0, 0)
    );
    Ok(())
}
