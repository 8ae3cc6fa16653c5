// Labels of wires: two halves of 64 bits, handed over side by side.

ghost use Rattle.std.specs.Prelude.{◌≡◌};
ghost use Rattle.label.specs.Labels.{colour_of, label_bytes, label_at};

use slices::{bytes_at, word_at};

// The left and the right half.
pub type Label = (u64, u64);

// The colour of a label: bit 0 of its left half.
pub fn colour(label: Label) -> bool
    ensures { result ≡ colour_of label }
{
    label.0 % 2 == 1
}

// The 16 bytes of a label; it is read back from them. A function, for no From can be written on a tuple.
pub fn to_bytes(label: Label) -> [u8; 16]
    ensures value { result ≡ label_bytes label }
    ensures back { label_at result 0 ≡ label }
{
    let [a0, a1, a2, a3, a4, a5, a6, a7] = label.0.to_le_bytes();
    let [b0, b1, b2, b3, b4, b5, b6, b7] = label.1.to_le_bytes();
    [
        a0, a1, a2, a3, a4, a5, a6, a7, b0, b1, b2, b3, b4, b5, b6, b7,
    ]
}

// The label in the 16 bytes at a place; bytes past the end count as 0.
pub fn label_at(bytes: &[u8], at: u32) -> Label
    ensures { result ≡ label_at bytes.now at }
{
    let both: [u8; 16] = bytes_at(bytes, at);
    (word_at(&both, 0), word_at(&both, 8))
}
