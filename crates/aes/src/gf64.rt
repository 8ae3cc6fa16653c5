// Products in GF(2^64), modulo z^64 + z^4 + z^3 + z + 1.

ghost use Rattle.std.specs.Prelude.{◌≡◌};
ghost use Rattle.aes.specs.Hash.{times64};

// a times z.
#[tactic(auto, using(crate::proofs::Tweaks::twice_is))]
pub(crate) fn twice(a: u64) -> u64
    ensures { result ≡ times64 a 2 }
{
    (a << 1) ^ ((a >> 63) * 0x1b)
}

// a times a tweak, by Horner's rule: a doubling for each of the tweak's coefficients, the highest first.
pub(crate) fn times_tweak(a: u64, tweak: u32) -> u64
    ensures { result ≡ times64 a tweak }
{
    let mut sum = 0;
    for i in (0..32u32).rev() {
        let coefficient = u64::from((tweak >> i) % 2);
        sum = (coefficient * a) ^ twice(sum);
    }
    sum
}
