// The labels of a gate's two wires, and their colours.

ghost use Rattle.std.specs.Prelude.{◌≡◌};
ghost use Rattle.label.specs.Labels.{colour_of};
ghost use Rattle.label.specs.Sums.{halves};
ghost use Rattle.gate.specs.Sums.{shifted, sum_of};

use label::{Label, Xor, colour};

// The colours of a gate's two labels.
pub type Colours = (bool, bool);

// The labels of the two wires that a gate reads. The offset goes beside them: it is the circuit's, and in the pair
// it would be set for labels that no offset is added to.
#[derive(Clone, Copy)]
pub struct LabelPair {
    pub first: Label,
    pub second: Label,
}

impl LabelPair {
    pub fn colours(self) -> Colours
        ensures { result ≡ (colour_of self.first, colour_of self.second) }
    {
        (colour(self.first), colour(self.second))
    }

    pub(crate) fn sum(self) -> Label
        ensures { result ≡ sum_of halves self.first self.second }
    {
        self.first.xor(self.second)
    }

    // Both labels, each with the offset added where its bit is set.
    pub fn shifted(self, delta: Label, bits: (bool, bool)) -> LabelPair
        ensures { result ≡ record { first = shifted halves delta self.first bits.0; second = shifted halves delta self.second bits.1 } }
    {
        LabelPair {
            first: shift(delta, self.first, bits.0),
            second: shift(delta, self.second, bits.1),
        }
    }
}

// A label with the offset added where the bit is set.
pub fn shift(delta: Label, label: Label, bit: bool) -> Label
    ensures { result ≡ shifted halves delta label bit }
{
    (
        label.0.xor(delta.0.times(bit)),
        label.1.xor(delta.1.times(bit)),
    )
}
