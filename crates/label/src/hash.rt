// The hash: one meaning, several ends.

ghost use Rattle.std.specs.Prelude.{◌≡◌, ℕ};
ghost use Rattle.label.specs.declared.hash.Answer.{Answer};

use crate::labels::Label;
use crate::xor::ControlPair;

// What a hash answers: a word and a control pair.
#[derive(Clone, Copy, PartialEq, Eq, Default, Debug)]
pub struct Answer {
    pub word: u64,
    pub pair: ControlPair,
}

// A function from label and tweak to an answer. A query gives its value, and never refuses; it may change what the hash
// keeps inside, and not the function. `asks` says what one query does to the hash, so that code above can say which
// queries it made, in which order.
// What calls above say of a hash, that its function stays and what it was asked, relates two moments, so that each says it again;
// by a law here each caller would have to derive it along its questions, which is no plainer.
pub trait Hash {
    ghost function: { Self → ℕ × ℕ → ℕ → Answer };

    ghost asks: { Self → ℕ × ℕ → ℕ → Self → Type 0 };

    fn query(&mut self, label: Label, tweak: u32) -> Answer
        ensures value { result ≡ function self.old label tweak }
        ensures kept { function self.new ≡ function self.old }
        ensures asked { asks self.old label tweak self.new };
}
