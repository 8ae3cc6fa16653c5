// The key schedule of FIPS 197.

ghost use Rattle.std.specs.Prelude.{◌≡◌, ◌*◌, ◌<◌, ◌≤◌, length};
ghost use Rattle.aes.specs.Columns.{column_at};
ghost use Rattle.aes.specs.Fips197.{bytes_of, rot_word, sub_word, rcon, scheduled, key_word, key_expansion};

use crate::tables::sub_byte;

// The round constants of the rounds 1 to 10: x to the power of the round less 1, as a word's first byte.
const RCON: [u32; 10] = [
    0x01000000, 0x02000000, 0x04000000, 0x08000000, 0x10000000, 0x20000000, 0x40000000, 0x80000000,
    0x1b000000, 0x36000000,
];

// The round constant of round j.
fn round_constant(j: usize) -> u32
    requires { (1 ≤ j) × (j < 11) }
    ensures { result ≡ rcon j }
{
    RCON[j - 1]
}

// A word's bytes turned by one place and then substituted.
fn turned_word(w: u32) -> u32
    ensures { result ≡ sub_word (rot_word w) }
{
    let [a, b, c, d] = w.to_be_bytes();
    u32::from_be_bytes([sub_byte(b), sub_byte(c), sub_byte(d), sub_byte(a)])
}

// Word i of the schedule, from the word before it, temp, and the word four places before it.
fn word_at(i: usize, temp: u32, before: u32) -> u32
    requires { (4 ≤ i) × (i < 44) }
    ensures { result ≡ scheduled i temp before }
{
    if i % 4 == 0 {
        before ^ (turned_word(temp) ^ round_constant(i / 4))
    } else {
        before ^ temp
    }
}

// Word i of some bytes, as FIPS 197 makes words of a key and columns of a block: the first byte is the highest.
pub(crate) fn column_at(bytes: &[u8], i: usize) -> u32
    requires { (length bytes.now ≡ 16) × (i < 4) }
    ensures word { result ≡ key_word bytes.now i }
    ensures bytes { bytes_of result ≡ column_at bytes.now (4 * i) }
{
    // not slices::bytes_at, which wants a narrower place and puts zeros past the end
    u32::from_be_bytes([
        bytes[4 * i],
        bytes[4 * i + 1],
        bytes[4 * i + 2],
        bytes[4 * i + 3],
    ])
}

// The key schedule.
pub(crate) fn expanded(key: &[u8]) -> [u32; 44]
    requires { length key.now ≡ 16 }
    ensures { result ≡ key_expansion key.now }
{
    let mut w = [0; 44];
    for i in 0..4 {
        w[i] = column_at(key, i);
    }
    // by index, for each word is found from those before it
    for i in 4..44 {
        w[i] = word_at(i, w[i - 1], w[i - 4]);
    }
    w
}
