// Every fault of a table, alone and before others.

use crate::tables::{bytes_of, long_table, told};
use circuit::Table;
use refusal::{Buffer, Refusal};
use std::test::Fail;

// A table in hexadecimal, and the number and place that its check tells; 0, 0 where it passes.
const CASES: [(&str, u8, u32); 26] = [
    // the sample passes; cut anywhere in the sizes it is too short for them
    ("030002000001a8000000000000000000000100", 0, 0),
    ("", 1, 0),
    ("030002", 1, 0),
    // no wire at all; inputs: none, more than wires
    ("000002000001a8000000000000000000000100", 2, 0),
    ("030000000001a8000000000000000000000100", 3, 0),
    ("030004000001a8000000000000000000000100", 3, 0),
    // a byte short, a byte long
    ("030002000001a80000000000000000000001", 4, 0),
    ("030002000001a800000000000000000000010000", 4, 0),
    // an input of side 2, with bit 6, and a gate with bit 6
    ("030002000002a8000000000000000000000100", 5, 1),
    ("030002004001a8000000000000000000000100", 5, 0),
    ("030002000001e8000000000000000000000100", 5, 2),
    // an input with a pair; a gate that reads itself, first and second
    ("030002000001a8000000000100000000000100", 6, 1),
    ("030002000001a8000000000000000002000100", 6, 2),
    ("030002000001a8000000000000000000000200", 6, 2),
    // free with another truth table, even with an odd one, odd with an even one
    ("03000200000187000000000000000000000100", 7, 2),
    ("03000200000198000000000000000000000100", 7, 2),
    ("030002000001a9000000000000000000000100", 7, 2),
    // each class with a truth table of its own
    ("03000200000186000000000000000000000100", 0, 0),
    ("03000200000199000000000000000000000100", 0, 0),
    ("030002000001bf000000000000000000000100", 0, 0),
    // a gate may read one wire twice
    ("030002000001a8000000000000000001000100", 0, 0),
    // no output
    ("03000200000128000000000000000000000100", 8, 0),
    // two faults on two wires: the lower wire, whichever number it has
    ("030002000002a9000000000000000000000100", 5, 1),
    ("030002000002a8010000000000000000000100", 6, 0),
    // two on one wire: the lower number
    ("030002000001e9000000000000000002000100", 5, 2),
    ("030002000001a9000000000000000002000100", 6, 2),
];

#[test]
fn first_fault(rt: HostRuntime) -> Result<(), Fail> {
    for (text, number, place) in CASES {
        let bytes = bytes_of(rt.alloc(), text)?;
        assert_eq!(rt;
            told(Table::check(bytes.as_slice())),
            (number, place),
            "{text}"
        );
    }
    Ok(())
}

// Wires, inputs and outputs of a long table, and what its check tells.
const LONG_CASES: [(u16, u16, u16, u8); 8] = [
    (1536, 1, 1, 0),
    (1536, 512, 256, 0),
    (1537, 1, 1, 2),
    (600, 512, 1, 0),
    (600, 513, 1, 3),
    (1, 1, 1, 0),
    (300, 2, 256, 0),
    (300, 2, 257, 8),
];

#[test]
fn sizes_at_their_limits(rt: HostRuntime) -> Result<(), Fail> {
    for (wires, inputs, outputs, number) in LONG_CASES {
        let bytes = long_table(rt.alloc(), wires, inputs, outputs)?;
        assert_eq!(rt;
            told(Table::check(bytes.as_slice())),
            (number, 0),
            "a long table"
        );
    }
    Ok(())
}

#[test]
fn numbers_and_places(rt: HostRuntime) {
    assert_eq!(rt; Refusal::ScriptOrder.number(), 38);
    assert_eq!(rt; Refusal::EqualMarks { wire: 7 }.place(), 7);
    assert_eq!(rt; Refusal::NoSuchInput { given: 99999 }.place(), 99999);
    assert_eq!(rt;
        Refusal::WrongLength {
            buffer: Buffer::OtherSheet,
        }
        .place(),
        7
    );
    assert_eq!(rt; Refusal::NoSuchSide.place(), 0);
}
