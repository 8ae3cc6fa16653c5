// The plain circuit and the public table.

use crate::tables::{MONDAY, bytes_of};
use circuit::{Table, public_table, run_plain};
use refusal::Refusal;
use std::test::Fail;

#[test]
fn monday_under_all_answers(rt: HostRuntime) -> Result<(), Fail> {
    let bytes = bytes_of(rt.alloc(), MONDAY)?;
    let table = Table::check(bytes.as_slice())?;
    for (first, second) in [(false, false), (false, true), (true, false), (true, true)] {
        let mut values = [true; 3];
        let mut outputs = [false; 1];
        run_plain(
            &table.circuit(),
            &[first, second],
            &mut values,
            &mut outputs,
        )?;
        assert_eq!(rt; values, [first, second, first && second]);
        assert_eq!(rt; outputs, [first && second]);
    }
    Ok(())
}

#[test]
fn plain_refuses_wrong_rooms(rt: HostRuntime) -> Result<(), Fail> {
    let bytes = bytes_of(rt.alloc(), MONDAY)?;
    let circuit = Table::check(bytes.as_slice())?.circuit();
    let mut values = [true; 3];
    let mut outputs = [true; 2];
    let refused = run_plain(&circuit, &[true, true], &mut [true; 4], &mut outputs);
    assert_eq!(rt; refused.err().map(Refusal::place), Some(4));
    let refused = run_plain(&circuit, &[true, true], &mut values, &mut outputs);
    assert_eq!(rt; refused.err().map(Refusal::place), Some(5));
    assert_eq!(rt; values, [true; 3]);
    assert_eq!(rt; outputs, [true; 2]);
    Ok(())
}

#[test]
fn public_table_of_monday(rt: HostRuntime) -> Result<(), Fail> {
    let bytes = bytes_of(rt.alloc(), MONDAY)?;
    let circuit = Table::check(bytes.as_slice())?.circuit();
    let mut public = [0xff; 19];
    public_table(&circuit, &mut public)?;
    assert_eq!(rt;
        public,
        [3, 0, 2, 0, 0, 1, 0xa0, 0, 0, 0, 0, 0, 0, 0, 0, 0, 0, 1, 0]
    );
    let mut short = [0xff; 18];
    let refused = public_table(&circuit, &mut short);
    assert_eq!(rt; refused.err().map(Refusal::number), Some(4));
    assert_eq!(rt; short, [0xff; 18]);
    Ok(())
}
