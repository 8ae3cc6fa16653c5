// A hash of labels: the ChaCha20 block function, keyed by key material and the label together.

ghost use Rattle.std.specs.Prelude.{◌≡◌, ℕ, ◌/◌, ◌%◌, ◌^◌, List, ◌++◌, length, IfOk};
ghost use Rattle.chacha.specs.Bytes.{serialised};
ghost use Rattle.chacha.specs.Block.{initial_state};
ghost use Rattle.chacha.specs.Hash.{label_key, label_nonce, read_block, answer_of, material_of};
ghost use Rattle.refusal.specs.Told.{Finds, length_fault};
ghost use Rattle.refusal.specs.declared.Buffer.TheVariants.{Key};

use crate::blocks::{added, state_of, words_in};
use crate::rounds::{State, twenty_rounds};
use label::{Answer, ControlPair, Hash, Label};
use refusal::{Buffer, Refusal, check_length};

// Key material of 28 bytes, kept as its seven words, which every block needs.
#[derive(Clone, Copy)]
pub struct ChaChaHash {
    words: [u32; 7],
}

// The low word of a number.
fn low(x: u64) -> u32
    ensures { result ≡ x % 2 ^ 32 }
{
    (x % 0x1_0000_0000) as u32
}

// The high word of a number.
fn high(x: u64) -> u32
    ensures { result ≡ x / 2 ^ 32 }
{
    (x >> 32) as u32
}

// The state that the block of a label and a tweak starts from, under the words of a key material.
fn start(words: &[u32; 7], label: Label, tweak: u32) -> State
    ensures { result ≡ initial_state (label_key (serialised words.now) label) tweak (label_nonce (serialised words.now)) }
{
    let [k0, k1, k2, k3, n0, n1, n2] = *words;
    let (left, right) = label;
    state_of(
        [
            k0,
            k1,
            k2,
            k3,
            low(left),
            high(left),
            low(right),
            high(right),
        ],
        tweak,
        [n0, n1, n2],
    )
}

// What the hash reads from a block, from the first row of its final state: bytes 0 to 8 are in its first three words.
fn read_row(first: [u32; 4]) -> Answer
    ensures { (rest : List ℕ) → result ≡ read_block (serialised (first ++ rest)) }
{
    let [low, high, control, _] = first;
    Answer {
        word: u64::from(low) + (u64::from(high) << 32),
        pair: ControlPair::in_bits(u64::from(control)),
    }
}

impl ChaChaHash {
    // The hash under a key material of 28 bytes.
    pub fn new(key: &[u8]) -> Result<ChaChaHash, Refusal>
        ensures fault { Finds result (length_fault 28 Key (length key.now)) }
        ensures holds { IfOk result (λ h. material_of h ≡ key.now) }
    {
        check_length(key.len(), 28, Buffer::Key)?;
        Ok(ChaChaHash {
            words: words_in(key),
        })
    }

    // The hash of a label under a tweak: of the block, only the row that is read is added up.
    pub fn answer(&self, label: Label, tweak: u32) -> Answer
        ensures { result ≡ answer_of (material_of self.now) label tweak }
    {
        let start = start(&self.words, label, tweak);
        let end = twenty_rounds(start);
        read_row(added(&end, &start))
    }
}

// A query keeps nothing.
impl Hash for ChaChaHash {
    ghost function = { λ h. answer_of (material_of h) };

    ghost asks = { λ before _ _ after. after ≡ before };

    fn query(&mut self, label: Label, tweak: u32) -> Answer {
        self.answer(label, tweak)
    }
}
