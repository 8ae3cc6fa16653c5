// The ChaCha20 block function, RFC 8439, 2.3.

ghost use Rattle.std.specs.Prelude.{◌≡◌, ◌*◌, ◌≤◌, length, take};
ghost use Rattle.chacha.specs.Bytes.{words_in, serialised};
ghost use Rattle.chacha.specs.Block.{state_of, added, final_state, block_of};

use crate::rounds::{State, twenty_rounds};
use std::array::from_fn;

// The first words of some bytes, each little-endian.
pub(crate) fn words_in<const N: usize>(bytes: &[u8]) -> [u32; N]
    requires { 4 * N ≤ length bytes.now }
    ensures { result ≡ words_in N bytes.now }
{
    // not slices::bytes_at, which wants a narrower place and puts zeros past the end
    from_fn(|i| {
        u32::from_le_bytes([
            bytes[4 * i],
            bytes[4 * i + 1],
            bytes[4 * i + 2],
            bytes[4 * i + 3],
        ])
    })
}

// The state that a block starts from, of the words of its key and of its nonce.
pub(crate) fn state_of(key: [u32; 8], counter: u32, nonce: [u32; 3]) -> State
    ensures { result ≡ state_of key counter nonce }
{
    let [k0, k1, k2, k3, k4, k5, k6, k7] = key;
    let [n0, n1, n2] = nonce;
    [
        0x61707865, 0x3320646e, 0x79622d32, 0x6b206574, k0, k1, k2, k3, k4, k5, k6, k7, counter,
        n0, n1, n2,
    ]
}

// The first words of two states added word by word: all 16 for a block, fewer where fewer are read.
pub(crate) fn added<const N: usize>(end: &State, start: &State) -> [u32; N]
    requires { N ≤ 16 }
    ensures { result ≡ take N (added end.now start.now) }
{
    from_fn(|i| end[i].wrapping_add(start[i]))
}

// The state after the 20 rounds, with the state that they started from added.
fn final_state(start: State) -> State
    ensures { result ≡ final_state start }
{
    added(&twenty_rounds(start), &start)
}

// The words as bytes, each little-endian.
fn serialise(state: State) -> [u8; 64]
    ensures { result ≡ serialised state }
{
    let mut bytes = [0; 64];
    // not from_fn, byte by byte: tried, and the block took half as long again
    for i in 0..16 {
        let [b0, b1, b2, b3] = state[i].to_le_bytes();
        bytes[4 * i] = b0;
        bytes[4 * i + 1] = b1;
        bytes[4 * i + 2] = b2;
        bytes[4 * i + 3] = b3;
    }
    bytes
}

// The ChaCha20 block function, RFC 8439, 2.3.1.
pub fn block(key: &[u8; 32], counter: u32, nonce: &[u8; 12]) -> [u8; 64]
    ensures { result ≡ block_of key.now counter nonce.now }
{
    serialise(final_state(state_of(words_in(key), counter, words_in(nonce))))
}
