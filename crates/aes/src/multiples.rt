// A number of GF(2^64) with the table of its multiples: its product with a tweak is the sum of eight of them.

ghost use Rattle.std.specs.Prelude.{◌≡◌, ◌^◌, ◌<◌};
ghost use Rattle.aes.specs.Hash.{times64};
ghost use Rattle.aes.specs.Multiples.{multiples};

use crate::gf64::times_tweak;

// A factor, and the products of which its product with any tweak is a sum.
#[derive(Drop)]
pub(crate) struct Multiples {
    factor: u64,
    entries: [u64; 128],
    ghost fits: { factor < 2 ^ 64 },
    ghost rule: { entries ≡ multiples factor },
}

// The multiples of a, in their order.
fn multiples_of(a: u64) -> [u64; 128]
    ensures { result ≡ multiples a }
{
    let mut entries = [0; 128];
    for (k, entry) in entries.iter_mut().enumerate() {
        *entry = times_tweak(a, ((k % 16) << (4 * (k / 16))) as u32);
    }
    entries
}

impl Multiples {
    // A factor with its table.
    pub(crate) fn new(factor: u64) -> Multiples
        ensures { result.factor ≡ factor }
    {
        let entries = multiples_of(factor);
        Multiples { factor, entries }
    }

    // The factor times a tweak: the sum of the entries for each four of the tweak's coefficients.
    pub(crate) fn times(&self, tweak: u32) -> u64
        ensures { result ≡ times64 self.now.factor tweak }
    {
        let mut sum = 0;
        // by index, for the tweak picks the place
        for j in 0..8 {
            let part = (tweak as usize >> (4 * j)) % 16;
            sum ^= self.entries[16 * j + part];
        }
        sum
    }
}
