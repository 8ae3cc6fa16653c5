// From eight values to five numbers and back: one text for halves of labels and for control pairs.
// Values stand in arrays of four, at colours 00, 01, 10 and 11, each with its left and its right part.

ghost use Rattle.std.specs.Prelude.{◌≡◌};
ghost use Rattle.label.specs.Sums.{group};
ghost use Rattle.gate.specs.Numbers.{five, mixed, back_left, back_right, left_in, right_in, five_in, six_in, listed};

use crate::labels::Colours;
use label::Xor;

// Five numbers, from the values.
fn five_numbers<T: Xor>(values: [(T, T); 4]) -> [T; 5]
    ensures { result ≡ listed (five (group T.plus T.nought) (left_in (group T.plus T.nought) values) (right_in (group T.plus T.nought) values)) }
{
    let [(l00, r00), (l01, r01), (l10, r10), (l11, _)] = values;
    let base = l00.xor(r00);
    [
        l00,
        r00,
        base.xor(l10).xor(r10),
        base.xor(l01).xor(r01),
        l10.xor(l11),
    ]
}

// What the server adds on the left and on the right, at its pair of colours.
pub fn add_back<T: Xor>(numbers: [T; 5], colours: Colours) -> (T, T)
    ensures { result ≡ (back_left (group T.plus T.nought) (five_in (group T.plus T.nought) numbers) colours.0 colours.1, back_right (group T.plus T.nought) (five_in (group T.plus T.nought) numbers) colours.0 colours.1) }
{
    let [n1, n2, n3, n4, n5] = numbers;
    match colours {
        (false, false) => (n1, n2),
        (false, true) => (n1.xor(n5), n2.xor(n4).xor(n5)),
        (true, false) => (n1.xor(n3).xor(n5), n2.xor(n5)),
        (true, true) => (n1.xor(n3), n2.xor(n4)),
    }
}

// The five numbers of a gate: the left values are its answers for A and S with something added, the right ones those for B and S.
pub fn gate_numbers<T: Xor>(answers: [T; 6], added: [(T, T); 4]) -> [T; 5]
    ensures { result ≡ listed (mixed (group T.plus T.nought) (six_in (group T.plus T.nought) answers) (left_in (group T.plus T.nought) added) (right_in (group T.plus T.nought) added)) }
{
    let [a0, a1, b0, b1, s0, s1] = answers;
    let [(k00, m00), (k01, m01), (k10, m10), (k11, m11)] = added;
    five_numbers([
        (a0.xor(s0).xor(k00), b0.xor(s0).xor(m00)),
        (a0.xor(s1).xor(k01), b1.xor(s1).xor(m01)),
        (a1.xor(s1).xor(k10), b0.xor(s1).xor(m10)),
        (a1.xor(s0).xor(k11), b1.xor(s0).xor(m11)),
    ])
}
