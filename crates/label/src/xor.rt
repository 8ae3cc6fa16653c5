// Sums in which everything is its own inverse: one interface for halves of labels, control pairs and whole labels.

ghost use Rattle.std.specs.Prelude.{cond, false, ◌≡◌, ◌/◌, ◌%◌, ◌==◌};
ghost use Rattle.std.specs.Int.Bits.{bit_xor, xor_assoc, xor_self};
ghost use Rattle.std.proofs.lemmas.Nat.{xor_comm};
ghost use Rattle.label.specs.Sums.{pair_plus, label_plus};
ghost use Rattle.std.proofs.Common.{rules};

// The sum ⊕ and its neutral element.
pub trait Xor: Copy {
    ghost plus: { Self → Self → Self };

    ghost nought: { Self };

    fn zero() -> Self
        ensures { result ≡ nought };

    fn xor(self, other: Self) -> Self
        ensures { result ≡ plus self other };

    // A bit times an element: the element, or nothing.
    fn times(self, bit: bool) -> Self
        ensures { result ≡ cond bit self nought }
    {
        if bit { self } else { Self::zero() }
    }

    ghost assoc: { (a b c : Self) → plus (plus a b) c ≡ plus a (plus b c) };

    ghost comm: { (a b : Self) → plus a b ≡ plus b a };

    ghost neutral: { (a : Self) → plus nought a ≡ a };

    ghost inverse: { (a : Self) → plus a a ≡ nought };
}

// A half of a label.
impl Xor for u64 {
    ghost plus = { bit_xor };

    ghost nought = { 0 };

    ghost assoc = { xor_assoc };

    ghost comm = { xor_comm };

    ghost neutral = { Prim.search rules };

    ghost inverse = { xor_self };

    fn zero() -> u64 {
        0
    }

    fn xor(self, other: u64) -> u64 {
        self ^ other
    }
}

// Two bits that say how the halves of an output label are made up.
#[derive(Clone, Copy, PartialEq, Eq, Default, Debug)]
pub struct ControlPair {
    pub low: bool,
    pub high: bool,
}

impl ControlPair {
    // The pair in the two low bits of a number: named, for a From would hide that the others do not count.
    pub fn in_bits(bits: u64) -> ControlPair
        ensures { result ≡ record { low = bits % 2 == 1; high = bits / 2 % 2 == 1 } }
    {
        ControlPair {
            low: bits % 2 == 1,
            high: bits / 2 % 2 == 1,
        }
    }
}

impl Xor for ControlPair {
    ghost plus = { pair_plus };

    ghost nought = { record { low = false; high = false } };

    ghost assoc = { Prim.search rules };

    ghost comm = { Prim.search rules };

    ghost neutral = { Prim.search rules };

    ghost inverse = { Prim.search rules };

    fn zero() -> ControlPair {
        ControlPair::default()
    }

    fn xor(self, other: ControlPair) -> ControlPair {
        ControlPair {
            low: self.low != other.low,
            high: self.high != other.high,
        }
    }
}

// A label: its left and right halves.
impl Xor for (u64, u64) {
    ghost plus = { label_plus };

    ghost nought = { (0, 0) };

    ghost assoc = { λ a b c i. (xor_assoc a.0 b.0 c.0 i, xor_assoc a.1 b.1 c.1 i) };

    ghost comm = { λ a b i. (xor_comm a.0 b.0 i, xor_comm a.1 b.1 i) };

    ghost neutral = { Prim.search rules };

    ghost inverse = { λ a i. (xor_self a.0 i, xor_self a.1 i) };

    fn zero() -> (u64, u64) {
        (0, 0)
    }

    fn xor(self, other: (u64, u64)) -> (u64, u64) {
        (self.0 ^ other.0, self.1 ^ other.1)
    }
}
