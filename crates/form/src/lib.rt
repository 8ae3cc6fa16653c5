// The form's parts in bytes: its length, ciphertexts, and control words written and read.
#![tactic(auto)]

ghost use Rattle.std.specs.Prelude.{◌≡◌, ◌<◌, []};
ghost use Rattle.form.specs.Controls.{pair_number, control_word, pair_in, controls_in};
ghost use Rattle.form.specs.Layout.{form_length, ciphertext_bytes};
ghost use Rattle.form.specs.Back.{FormBack};

use label::ControlPair;
use std::array::from_fn;

// The length of a form, for this many wires, garbled gates and outputs: the sizes, the arrays, the gates and the marks, one
// after the other. A form of that length is read back as it was written.
pub fn form_length(wires: u16, garbled: u16, outputs: u16) -> usize
    ensures value { result ≡ form_length wires garbled outputs }
    ensures back { FormBack }
{
    8 + 5 * usize::from(wires) + 26 * usize::from(garbled) + 32 * usize::from(outputs)
}

// The number of a control pair. A function, as those below: no From can stand here between a number and a type of another crate.
fn pair_number(pair: ControlPair) -> u16
    ensures value { result ≡ pair_number pair }
    ensures small { result < 4 }
{
    u16::from(pair.low) + 2 * u16::from(pair.high)
}

// The control word of five control pairs.
pub fn control_word(controls: [ControlPair; 5]) -> u16
    ensures { result ≡ control_word controls }
{
    let [a, b, c, d, e] = controls.map(pair_number);
    a + 4 * b + 16 * c + 64 * d + 256 * e
}

// A control pair of a control word.
fn pair_in(word: u16, e: usize) -> ControlPair
    requires { e < 5 }
    ensures { result ≡ pair_in word e }
{
    ControlPair {
        low: (word >> (2 * e)) % 2 == 1,
        high: (word >> (2 * e + 1)) % 2 == 1,
    }
}

// The five control pairs of a control word.
pub fn controls_of(word: u16) -> [ControlPair; 5]
    ensures { result ≡ controls_in word }
{
    from_fn(|e| pair_in(word, e))
}

// The bytes of three ciphertexts.
pub fn ciphertext_bytes(ciphertexts: [u64; 3]) -> [u8; 24]
    ensures { result ≡ ciphertext_bytes (record { ciphertexts = ciphertexts; controls = [] }) }
{
    let [a, b, c] = ciphertexts.map(u64::to_le_bytes);
    let mut bytes = [0; 24];
    bytes[..8].copy_from_slice(&a);
    bytes[8..16].copy_from_slice(&b);
    bytes[16..].copy_from_slice(&c);
    bytes
}
