// The hash's public calls.

ghost use Rattle.std.specs.Prelude.{◌≡◌, length, IfOk};
ghost use Rattle.refusal.specs.Told.{Finds, length_fault};
ghost use Rattle.refusal.specs.declared.Buffer.TheVariants.{Key};
ghost use Rattle.aes.specs.Fips197.{cipher, key_expansion};
ghost use Rattle.aes.specs.Hash.{material_in, answer_of};
ghost use Rattle.aes.specs.Keys.{material_of, schedule_word};

use crate::AesHash;
use crate::gf64::twice;
use crate::multiples::Multiples;
use crate::rounds::cipher;
use crate::schedule::expanded;
use label::{Answer, ControlPair, Hash, Label, Xor, label_at, to_bytes};
use refusal::{Buffer, Refusal, check_length};

impl AesHash {
    // A hash under the key material in 32 bytes: an AES-128 key, and two numbers of GF(2^64), little-endian.
    pub fn new(key: &[u8]) -> Result<AesHash, Refusal>
        ensures fault { Finds result (length_fault 32 Key (length key.now)) }
        ensures holds { IfOk result (λ h. material_of h ≡ material_in key.now) }
    {
        check_length(key.len(), 32, Buffer::Key)?;
        let (u1, u2) = label_at(key, 16);
        Ok(AesHash {
            words: expanded(&key[..16]),
            u1: Multiples::new(u1),
            u2: Multiples::new(u2),
        })
    }

    // Word i of the key schedule.
    pub fn round_key_word(&self, i: usize) -> Option<u32>
        ensures { result ≡ schedule_word (material_of self.now).key i }
    {
        self.words.get(i).copied()
    }

    // The cipher of a block under the key.
    #[tactic(auto, unfolding(crate::specs::Keys::material_of))]
    pub fn encrypt(&self, block: [u8; 16]) -> [u8; 16]
        ensures { result ≡ cipher block (key_expansion (material_of self.now).key) }
    {
        cipher(&block, &self.words)
    }

    // The word and the control pair for a label and a tweak.
    pub fn answer(&self, label: Label, tweak: u32) -> Answer
        ensures { result ≡ answer_of (material_of self.now) label tweak }
    {
        let masked = label.xor((self.u1.times(tweak), self.u2.times(tweak)));
        let ciphertext = label_at(&self.encrypt(to_bytes(masked)), 0);
        let doubled = (twice(masked.0), twice(masked.1));
        let (word, control) = ciphertext.xor(doubled);
        Answer {
            word,
            pair: ControlPair::in_bits(control),
        }
    }
}

// A query keeps nothing.
impl Hash for AesHash {
    ghost function = { λ h. answer_of (material_of h) };

    ghost asks = { λ before _ _ after. material_of after ≡ material_of before };

    fn query(&mut self, label: Label, tweak: u32) -> Answer {
        self.answer(label, tweak)
    }
}
