// The ChaCha20 vectors of RFC 8439, and queries of the hash built on it.

use crate::chacha_published::{BLOCKS, STATE_AFTER, STATE_BEFORE};
use crate::chacha_queries::{Keyed, QUERIES};
use crate::report::report;
use chacha::{ChaChaHash, block, quarter_round};
use std::io;

// The quarter round of RFC 8439, 2.1.1.
fn run_quarter_round(rt: &HostRuntime) -> io::Result<()> {
    let found = quarter_round(0x11111111, 0x01020304, 0x9b8d6f43, 0x01234567);
    let expected = (0xea2a92f4, 0xcb1cf8ce, 0x4581472e, 0x5881c4bb);
    report(rt, "ChaCha20 2.1.1 quarter round:", found, expected)
}

// The quarter round on a state, RFC 8439, 2.2.1: QUARTERROUND(2, 7, 8, 13).
fn run_on_state(rt: &HostRuntime) -> io::Result<()> {
    let mut s = STATE_BEFORE;
    (s[2], s[7], s[8], s[13]) = quarter_round(s[2], s[7], s[8], s[13]);
    report(
        rt,
        "ChaCha20 2.2.1 quarter round on a state:",
        s,
        STATE_AFTER,
    )
}

// A query of the hash, under its key material.
fn run_query(rt: &HostRuntime, keyed: &Keyed) -> io::Result<()> {
    let Keyed { name, key, query } = keyed;
    let Ok(mut hash) = ChaChaHash::new(*key) else {
        return println!(rt; "ChaCha hash, {name}: the key material is refused");
    };
    query.run(rt, &mut hash, format_args!("ChaCha hash, {name}:"))
}

// Key material of another length than 28 bytes.
fn run_refusals(rt: &HostRuntime) -> io::Result<()> {
    let places = [[0; 27].as_slice(), [0; 29].as_slice()].map(|key| ChaChaHash::new(key)
        .err()
        .map(|refusal| refusal.place()));
    report(rt, "ChaCha hash, 27 and 29 bytes:", places, [Some(6); 2])
}

pub(crate) fn run_chacha(rt: &HostRuntime) -> io::Result<()> {
    run_quarter_round(rt)?;
    run_on_state(rt)?;
    for v in &BLOCKS {
        let line = format_args!("ChaCha20 {} block:", v.name);
        report(rt, line, block(v.key, v.counter, v.nonce), *v.expected)?;
    }
    for keyed in &QUERIES {
        run_query(rt, keyed)?;
    }
    run_refusals(rt)
}
