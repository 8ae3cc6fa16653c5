// The four views of a gate, drawn together and handed over as four.

ghost use Rattle.std.specs.Prelude.{◌≡◌};
ghost use Rattle.label.specs.Sums.{halves};
ghost use Rattle.gate.specs.Views.{by_colours, parity_of, dice_of, if_hidden, a_of, b_of, alpha_shift, beta_shift, corner_of, view_at, views_of};
ghost use Rattle.gate.specs.Sums.{view_left, view_right};
ghost use Rattle.gate.specs.Gates.{trimmed, corner_from};

use crate::labels::{Colours, LabelPair};
use label::{ControlPair, Label, Xor};
use wires::look_up;

// What is public of the truth table of a garbled gate: whether the number of its ones is even or odd, or not even that.
#[derive(Clone, Copy)]
pub enum Parity {
    Even,
    Odd,
    Hidden,
}

// The truth values at the colours of the two inputs.
#[derive(Clone, Copy)]
pub struct Truth {
    pub t00: bool,
    pub t01: bool,
    pub t10: bool,
    pub t11: bool,
}

// The bits that are drawn for a gate.
#[derive(Clone, Copy)]
pub struct Dice {
    pub rho1: bool,
    pub rho2: bool,
    pub gamma0: bool,
    pub epsilon0: bool,
}

// A gate to be garbled: its parity, its truth values and its dice.
#[derive(Clone, Copy)]
pub struct Gate {
    pub parity: Parity,
    pub truth: Truth,
    pub dice: Dice,
}

// Which of its input labels' halves the server adds into the output label.
#[derive(Clone, Copy)]
pub struct View {
    pub alpha: bool,
    pub beta: bool,
    pub gamma: bool,
    pub epsilon: bool,
}

impl Truth {
    // The truth table by colour, where the false labels have these colours.
    pub fn by_colours(truth_table: u8, colours: Colours) -> Truth
        ensures { result ≡ by_colours truth_table colours.0 colours.1 }
    {
        let (first, second) = colours;
        Truth {
            t00: look_up(truth_table, first, second),
            t01: look_up(truth_table, first, !second),
            t10: look_up(truth_table, !first, second),
            t11: look_up(truth_table, !first, !second),
        }
    }

    fn parity(self) -> bool
        ensures { result ≡ parity_of self }
    {
        self.t00 ^ self.t01 ^ (self.t10 ^ self.t11)
    }
}

// The dice in a byte, from bit 0 up.
impl From<u8> for Dice {
    ghost from_gives = { λ byte dice. dice ≡ dice_of byte };

    fn from(byte: u8) -> Dice {
        Dice {
            rho1: byte % 2 == 1,
            rho2: byte / 2 % 2 == 1,
            gamma0: byte / 4 % 2 == 1,
            epsilon0: byte / 8 % 2 == 1,
        }
    }
}

impl Parity {
    // A bit that counts in hidden gates only.
    fn if_hidden(self, bit: bool) -> bool
        ensures { result ≡ if_hidden self bit }
    {
        match self {
            Parity::Even | Parity::Odd => false,
            Parity::Hidden => bit,
        }
    }

    // A control pair, whose high bit counts in hidden gates only.
    pub(crate) fn trim(self, pair: ControlPair) -> ControlPair
        ensures { result ≡ trimmed self pair }
    {
        ControlPair {
            high: self.if_hidden(pair.high),
            ..pair
        }
    }

    // γ or ε of a view, at one of the two colours: public in an odd gate, secret in a hidden one.
    pub(crate) fn corner(self, secret: bool, colour: bool) -> bool
        ensures { result ≡ corner_from self secret colour }
    {
        match self {
            Parity::Even => false,
            Parity::Odd => !colour,
            Parity::Hidden => secret,
        }
    }
}

impl View {
    // The value of a view on two labels, left and right.
    pub(crate) fn value(self, labels: LabelPair) -> Label
        ensures { result ≡ (view_left halves self labels.first labels.second, view_right halves self labels.first labels.second) }
    {
        let (x, y) = (labels.first, labels.second);
        let left = x.0.xor(x.1).xor(y.0).times(self.alpha);
        let left = left
            .xor(x.0.xor(y.1).times(self.beta))
            .xor(y.0.times(self.gamma));
        let right = x.0.xor(y.1).times(self.alpha);
        let right = right
            .xor(x.1.xor(y.0).xor(y.1).times(self.beta))
            .xor(x.1.times(self.epsilon));
        (left, right)
    }
}

// What two colours add to ρ1 and to ρ2, from a and b.
fn shifts(colours: Colours, a: bool, b: bool) -> (bool, bool)
    ensures { result ≡ (alpha_shift colours.0 colours.1 a b, beta_shift colours.0 colours.1 a b) }
{
    match colours {
        (false, false) => (false, false),
        (false, true) => (a ^ b, a),
        (true, false) => (b, a ^ b),
        (true, true) => (a, b),
    }
}

impl Gate {
    // γ or ε of a view, at one of the two colours, from the bit drawn for it.
    fn corner(self, drawn: bool, colour: bool) -> bool
        ensures { result ≡ corner_of self.parity (parity_of self.truth) drawn colour }
    {
        let odd = self.truth.parity();
        self.parity.corner(drawn ^ (odd && !colour), colour)
    }

    fn a(self) -> bool
        ensures { result ≡ a_of self.parity self.truth self.dice }
    {
        self.truth.t10 ^ self.truth.t11 ^ self.parity.if_hidden(self.dice.gamma0)
    }

    fn b(self) -> bool
        ensures { result ≡ b_of self.parity self.truth self.dice }
    {
        self.truth.t01 ^ self.truth.t11 ^ self.parity.if_hidden(self.dice.epsilon0)
    }

    // The view at two colours.
    fn view_at(self, colours: Colours) -> View
        ensures { result ≡ view_at self.parity self.truth self.dice colours.0 colours.1 }
    {
        let dice = self.dice;
        let (alpha, beta) = shifts(colours, self.a(), self.b());
        View {
            alpha: dice.rho1 ^ alpha,
            beta: dice.rho2 ^ beta,
            gamma: self.corner(dice.gamma0, colours.0),
            epsilon: self.corner(dice.epsilon0, colours.1),
        }
    }
}

// The four views, at colours 00, 01, 10 and 11.
pub fn draw_views(gate: Gate) -> [View; 4]
    ensures { result ≡ views_of gate.parity gate.truth gate.dice }
{
    [(false, false), (false, true), (true, false), (true, true)].map(|colours| gate.view_at(
        colours,
    ))
}
