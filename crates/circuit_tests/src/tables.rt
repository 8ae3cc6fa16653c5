// Tables to test with, and what is told of them.

use refusal::Refusal;
use std::alloc::{AllocError, Global};
use std::iter;
use std::test::Fail;

// An AND of one wire a side: wires 0 and 1 are inputs of sides 0 and 1, wire 2 is the output.
pub(crate) const MONDAY: &str = "030002000001a8000000000000000000000100";

// The bytes of a table in hexadecimal.
pub(crate) fn bytes_of(heap: Global, text: &str) -> Result<Vec<u8>, Fail> {
    Ok(hexadecimal::decode(heap, text.as_bytes())?.ok_or("no hexadecimal text")?)
}

// A table of so many wires: inputs of side 0, then free gates on wire 0 twice; the last wires are outputs.
pub(crate) fn long_table(
    heap: Global,
    wires: u16,
    inputs: u16,
    outputs: u16,
) -> Result<Vec<u8>, AllocError> {
    let mut bytes = Vec::new(heap);
    bytes.extend_from_slice(&wires.to_le_bytes())?;
    bytes.extend_from_slice(&inputs.to_le_bytes())?;
    for wire in 0..wires {
        let kind = if wire < inputs { 0 } else { 0x06 };
        let output = if wires - wire <= outputs { 0x80 } else { 0 };
        bytes.push(kind | output)?;
    }
    bytes.extend(iter::repeat_n(0, 4 * usize::from(wires)))?;
    Ok(bytes)
}

// Number and place of a refusal; 0, 0 where the call is done: a pair, as the tests state their values, and in each crate of
// tests, for these share no code and no other caller wants a pair.
pub(crate) fn told<T: Drop>(answer: Result<T, Refusal>) -> (u8, u32) {
    answer
        .err()
        .map_or((0, 0), |refusal| (refusal.number(), refusal.place()))
}
