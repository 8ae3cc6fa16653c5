// The cipher's rounds on a state of four words, one for each column: in a round but the last a new column is the sum of four
// entries of the tables and a word of the key schedule.

ghost use Rattle.std.specs.Prelude.{◌≡◌, ◌<◌};
ghost use Rattle.aes.specs.Fips197.{sub_bytes, shift_rows, mix_columns, bytes_of, round_key, add_round_key, cipher};
ghost use Rattle.aes.specs.Columns.{mixed_column, last_column, state_of};

use crate::schedule::column_at;
use crate::tables::{mixed_row, sub_byte};

// The column that the rows' bytes of a, b, c and d come to: substituted, mixed, and with the key's word added.
fn mixed_column(a: u32, b: u32, c: u32, d: u32, key: u32) -> u32
    ensures { bytes_of result ≡ mixed_column a b c d key }
{
    mixed_row::<0>(a.to_be_bytes()[0])
        ^ mixed_row::<1>(b.to_be_bytes()[1])
        ^ mixed_row::<2>(c.to_be_bytes()[2])
        ^ mixed_row::<3>(d.to_be_bytes()[3])
        ^ key
}

// The same in the last round, which does not mix.
fn last_column(a: u32, b: u32, c: u32, d: u32, key: u32) -> u32
    ensures { bytes_of result ≡ last_column a b c d key }
{
    u32::from_be_bytes([
        sub_byte(a.to_be_bytes()[0]),
        sub_byte(b.to_be_bytes()[1]),
        sub_byte(c.to_be_bytes()[2]),
        sub_byte(d.to_be_bytes()[3]),
    ]) ^ key
}

// Round 0, which adds its key to the block.
fn first_round(block: &[u8; 16], w: &[u32; 44]) -> [u32; 4]
    ensures { state_of result ≡ add_round_key block.now (round_key w.now 0) }
{
    [
        column_at(block, 0) ^ w[0],
        column_at(block, 1) ^ w[1],
        column_at(block, 2) ^ w[2],
        column_at(block, 3) ^ w[3],
    ]
}

// A round but the first and the last.
fn mixed_round(s: [u32; 4], w: &[u32; 44], round: usize) -> [u32; 4]
    requires { round < 11 }
    ensures { state_of result ≡ add_round_key (mix_columns (shift_rows (sub_bytes (state_of s)))) (round_key w.now round) }
{
    let [a, b, c, d] = s;
    [
        mixed_column(a, b, c, d, w[4 * round]),
        mixed_column(b, c, d, a, w[4 * round + 1]),
        mixed_column(c, d, a, b, w[4 * round + 2]),
        mixed_column(d, a, b, c, w[4 * round + 3]),
    ]
}

// The last round.
fn last_round(s: [u32; 4], w: &[u32; 44]) -> [u32; 4]
    ensures { state_of result ≡ add_round_key (shift_rows (sub_bytes (state_of s))) (round_key w.now 10) }
{
    let [a, b, c, d] = s;
    [
        last_column(a, b, c, d, w[40]),
        last_column(b, c, d, a, w[41]),
        last_column(c, d, a, b, w[42]),
        last_column(d, a, b, c, w[43]),
    ]
}

// The bytes of a state.
fn block_of(s: [u32; 4]) -> [u8; 16]
    ensures { result ≡ state_of s }
{
    // listed: an index, divided for word and byte, is no plainer
    let a = s[0].to_be_bytes();
    let b = s[1].to_be_bytes();
    let c = s[2].to_be_bytes();
    let d = s[3].to_be_bytes();
    [
        a[0], a[1], a[2], a[3], b[0], b[1], b[2], b[3], c[0], c[1], c[2], c[3], d[0], d[1], d[2],
        d[3],
    ]
}

// The cipher of a block under the key schedule w.
pub(crate) fn cipher(block: &[u8; 16], w: &[u32; 44]) -> [u8; 16]
    ensures { result ≡ cipher block.now w.now }
{
    let mut s = first_round(block, w);
    for round in 1..10 {
        // two steps: the prover does not cover a call whose result is an array that is assigned at once
        let next = mixed_round(s, w, round);
        s = next;
    }
    block_of(last_round(s, w))
}
