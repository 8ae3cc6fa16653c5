// The program `plain`: reads a circuit table in hexadecimal, prints its sizes, and runs it in the clear.
// Up to eight inputs it prints the outputs for every combination of input bits; with more, for the bits on each line that follows.
#![tactic(auto)]

ghost use Rattle.std.specs.Prelude.{◌<◌};

mod show;

use anyhow::Context;
use circuit::{Table, run_plain};
use show::{bits_of, digits, sizes};
use std::alloc::{AllocError, Global};

// The most inputs whose combinations are all printed.
const ALL_COMBINATIONS: u16 = 8;

// One row: the input bits and the outputs.
fn row(rt: &HostRuntime, table: &Table, inputs: &[bool]) -> anyhow::Result<()> {
    let circuit = table.circuit();
    let mut values = vec![in rt.alloc(); false; usize::from(circuit.wires)]?;
    let mut outputs = vec![in rt.alloc(); false; usize::from(table.outputs())]?;
    // the buffers fit, so nothing is refused here; a refusal would be printed
    if let Err(refusal) = run_plain(
        &circuit,
        inputs,
        values.as_mut_slice(),
        outputs.as_mut_slice(),
    ) {
        return Ok(println!(rt; "refused {} {}", refusal.number(), refusal.place())?);
    }
    let given = digits(rt.alloc(), inputs)?;
    let found = digits(rt.alloc(), outputs.as_slice())?;
    Ok(println!(rt; "{given} {found}")?)
}

// The bits of a number, as many as there are inputs, wire 0 first.
fn combination(heap: Global, number: u16, inputs: u16) -> Result<Vec<bool>, AllocError>
    requires { inputs < 16 }
{
    (0..inputs)
        .rev()
        .map(|bit| (number >> bit) % 2 == 1)
        .collect(heap)
}

// The rows of all combinations of input bits.
fn all_rows(rt: &HostRuntime, table: &Table) -> anyhow::Result<()>
    requires { table.now.circuit.inputs < 16 }
{
    let inputs = table.circuit().inputs;
    for number in 0..1u16 << inputs {
        let bits = combination(rt.alloc(), number, inputs)?;
        row(rt, table, bits.as_slice())?;
    }
    Ok(())
}

// The row of a line of bits, if it has one bit for each input.
fn given_row(rt: &HostRuntime, table: &Table, line: &str) -> anyhow::Result<()> {
    let inputs = table.circuit().inputs;
    match bits_of(rt.alloc(), line.as_bytes(), usize::from(inputs))? {
        Some(bits) => row(rt, table, bits.as_slice()),
        None => Ok(println!(rt; "expected {inputs} bits, each 0 or 1: {line}")?),
    }
}

fn run(rt: &HostRuntime) -> anyhow::Result<()> {
    let mut lines = rt.lines(rt.alloc());
    let first = lines.next().context("no circuit table on standard input")??;
    let bytes = hexadecimal::decode(rt.alloc(), first.as_bytes())?.context(
        "the first line is not a table in hexadecimal",
    )?;
    // a refused table is printed, and is no error of the program
    let table = match Table::check(bytes.as_slice()) {
        Ok(table) => table,
        Err(refusal) => {
            let (number, place) = (refusal.number(), refusal.place());
            return Ok(println!(rt; "refused {number} {place}: {refusal}")?);
        }
    };
    sizes(rt, &table)?;
    if table.circuit().inputs <= ALL_COMBINATIONS {
        return all_rows(rt, &table);
    }
    for line in lines {
        given_row(rt, &table, line?.as_str())?;
    }
    Ok(())
}

fn main(rt: HostRuntime) -> anyhow::Result<()> {
    run(&rt)
}
