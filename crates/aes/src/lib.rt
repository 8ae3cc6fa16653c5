// AES-128 encryption by FIPS 197, and the hash of wire labels that is built on it.
#![tactic(auto)]

ghost use Rattle.std.specs.Prelude.{◌≡◌};
ghost use Rattle.aes.specs.Columns.{state_of};
ghost use Rattle.aes.specs.Fips197.{key_expansion};

mod gf64;
mod hash;
mod multiples;
mod rounds;
mod schedule;
mod tables;

use multiples::Multiples;

// A hash under fixed key material: the key schedule, and the two numbers of GF(2^64) that tweaks are multiplied with.
#[derive(Drop)]
pub struct AesHash {
    words: [u32; 44],
    u1: Multiples,
    u2: Multiples,
    ghost expands: { words ≡ key_expansion (state_of words) },
}
