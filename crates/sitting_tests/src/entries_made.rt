// Entries: entered, changed, released, and refused.

use crate::desk::{Desk, Fitting, TABLE, TAPE, sample_rows, told};
use entries::{change, close, enter, release};
use ledger::Ledger;
use opening::OpenSitting;
use refusal::Refusal;
use std::process::Abort;
use std::test::Fail;

// The sample round opened, with what its calls are lent.
#[derive(Drop)]
struct Round {
    sitting: OpenSitting,
    ledger: Ledger,
    store: [u64; 6],
    sheet: [u8; 36],
}

impl Round {
    // Opened by a side.
    fn open(side: u32) -> Result<Round, Refusal> {
        let mut desk = Fitting::at(0);
        let sitting = desk.open(side, &TABLE, &TAPE, &sample_rows())?;
        let Desk {
            ledger,
            store,
            sheet,
            ..
        } = desk;
        Ok(Round {
            sitting,
            ledger,
            store,
            sheet,
        })
    }

    fn enter(&mut self, wire: u32, bit: u32) -> (u8, u32) {
        told(enter(&self.sitting, &mut self.ledger, wire, bit))
    }

    fn change(&mut self, wire: u32, bit: u32) -> (u8, u32) {
        told(change(&self.sitting, &mut self.ledger, wire, bit))
    }

    fn release(&mut self, wire: u32) -> (u8, u32) {
        told(release(
            &self.sitting,
            &mut self.ledger,
            &mut self.store,
            &mut self.sheet,
            wire,
        ))
    }
}

// A label that has gone stays as it went: neither a change nor a new entry gets past it.
#[test]
fn changed_after_release(rt: HostRuntime) -> Result<(), Fail> {
    let mut round = Round::open(0)?;
    assert_eq!(rt; round.enter(0, 1), (0, 0));
    assert_eq!(rt; round.release(0), (0, 0));
    let (store, sheet) = (round.store, round.sheet);
    assert_eq!(rt; (sheet[2], sheet[4], sheet[12]), (1, 17, 34));
    assert_eq!(rt; store, [1, 2, 0, 0, 65, 130]);
    assert_eq!(rt; round.change(0, 0), (33, 0));
    assert_eq!(rt; round.enter(0, 0), (33, 0));
    assert_eq!(rt; round.release(0), (33, 0));
    assert_eq!(rt; round.store, store);
    assert_eq!(rt; round.sheet, sheet);
    let ledger = &round.ledger;
    assert_eq!(rt; (ledger.count_waiting(), ledger.count_released()), (0, 1));
    Ok(())
}

// A number that is no input is named before anything else is said of it.
fn no_input(rt: &impl Abort, round: &mut Round, wire: u32) {
    assert_eq!(rt; round.enter(wire, 2), (12, wire));
    assert_eq!(rt; round.change(wire, 0), (12, wire));
    assert_eq!(rt; round.release(wire), (12, wire));
}

// What two releases on buffers that are too short tell: store and sheet, then the sheet alone.
fn short_releases(round: &mut Round) -> [(u8, u32); 2] {
    let Round {
        sitting,
        ledger,
        store,
        ..
    } = round;
    let both = told(release(sitting, ledger, &mut [0; 5], &mut [0; 35], 9));
    let sheet = told(release(sitting, ledger, store, &mut [0; 35], 9));
    [both, sheet]
}

// Every cause, in its order.
#[test]
fn refused_entries(rt: HostRuntime) -> Result<(), Fail> {
    let mut round = Round::open(1)?;
    for wire in [2, 511, 512, 65535] {
        no_input(&rt, &mut round, wire);
    }
    assert_eq!(rt; round.enter(0, 2), (13, 0));
    assert_eq!(rt; round.change(1, 2), (13, 1));
    assert_eq!(rt; round.enter(0, 1), (32, 0));
    assert_eq!(rt; round.release(0), (32, 0));
    assert_eq!(rt; round.change(1, 1), (35, 1));
    assert_eq!(rt; round.release(1), (35, 1));
    assert_eq!(rt; round.enter(1, 0), (0, 0));
    assert_eq!(rt; round.enter(1, 1), (34, 1));
    assert_eq!(rt; round.change(1, 1), (0, 0));
    assert_eq!(rt; short_releases(&mut round), [(10, 2), (10, 3)]);
    assert_eq!(rt; round.release(1), (0, 0));
    let sheet = round.sheet;
    assert_eq!(rt; (sheet[3], sheet[20], sheet[28]), (1, 64, 128));
    assert_eq!(rt; round.release(1), (33, 1));
    Ok(())
}

// Closed on a store that is too short, which gives the sitting back, and then on the whole.
fn closes(
    rt: &impl Abort,
    sitting: OpenSitting,
    ledger: &Ledger,
    mut store: [u64; 6],
) -> Result<(), Fail> {
    let (sitting, refusal) = close(sitting, ledger, &mut store[..5])
        .err()
        .ok_or("closed on a store that is too short")?;
    assert_eq!(rt; (refusal.number(), refusal.place(), store[0]), (10, 2, 1));
    let ended = close(sitting, ledger, &mut store).ok().ok_or("not closed")?;
    assert_eq!(rt; (ended.waiting(), ended.released()), (1, 0));
    assert_eq!(rt; store, [0; 6]);
    Ok(())
}

// Closing gives the sitting back where the store is of another length; done, it zeroes the store and counts.
#[test]
fn closed(rt: HostRuntime) -> Result<(), Fail> {
    let mut round = Round::open(0)?;
    assert_eq!(rt; round.enter(0, 1), (0, 0));
    let Round {
        sitting,
        ledger,
        store,
        ..
    } = round;
    closes(&rt, sitting, &ledger, store)
}
