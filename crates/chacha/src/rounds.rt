// The rounds of ChaCha20 on a state of 16 words, RFC 8439, 2.1 to 2.3.

ghost use Rattle.std.specs.Prelude.{◌≡◌, ◌<◌};
ghost use Rattle.chacha.specs.Rounds.{quarter_round, quarter_round_at, column_round, diagonal_round, twenty_rounds};

// The state: a four by four matrix of words, row after row.
pub(crate) type State = [u32; 16];

// The quarter round, RFC 8439, 2.1.
#[tactic(auto, unfolding(crate::specs::Words::roll, crate::specs::Rounds::quarter_round))]
pub fn quarter_round(a: u32, b: u32, c: u32, d: u32) -> (u32, u32, u32, u32)
    ensures { result ≡ quarter_round a b c d }
{
    let a1 = a.wrapping_add(b);
    let d1 = (d ^ a1).rotate_left(16);
    let c1 = c.wrapping_add(d1);
    let b1 = (b ^ c1).rotate_left(12);
    let a2 = a1.wrapping_add(b1);
    let d2 = (d1 ^ a2).rotate_left(8);
    let c2 = c1.wrapping_add(d2);
    let b2 = (b1 ^ c2).rotate_left(7);
    (a2, b2, c2, d2)
}

// The quarter round on the words of a state at four indices, RFC 8439, 2.2.
#[inline(always)]
#[tactic(auto, unfolding(crate::specs::Rounds::quarter_round_at))]
fn quarter_round_at(s: &mut State, x: usize, y: usize, z: usize, w: usize)
    requires { (x < 16) × (y < 16) × (z < 16) × (w < 16) }
    ensures { s.new ≡ quarter_round_at x y z w s.old }
{
    let (a, b, c, d) = quarter_round(s[x], s[y], s[z], s[w]);
    s[x] = a;
    s[y] = b;
    s[z] = c;
    s[w] = d;
}

// A quarter round on each column.
#[tactic(auto, unfolding(crate::specs::Rounds::column_round))]
fn column_round(s: &mut State)
    ensures { s.new ≡ column_round s.old }
{
    quarter_round_at(s, 0, 4, 8, 12);
    quarter_round_at(s, 1, 5, 9, 13);
    quarter_round_at(s, 2, 6, 10, 14);
    quarter_round_at(s, 3, 7, 11, 15);
}

// A quarter round on each diagonal; listed like the columns, and apart from them, as the RFC has both.
#[tactic(auto, unfolding(crate::specs::Rounds::diagonal_round))]
fn diagonal_round(s: &mut State)
    ensures { s.new ≡ diagonal_round s.old }
{
    quarter_round_at(s, 0, 5, 10, 15);
    quarter_round_at(s, 1, 6, 11, 12);
    quarter_round_at(s, 2, 7, 8, 13);
    quarter_round_at(s, 3, 4, 9, 14);
}

// How many double rounds there are: 20 rounds.
const DOUBLE_ROUNDS: u32 = 10;

// The 20 rounds, RFC 8439, 2.3: a column and a diagonal round, ten times.
#[tactic(auto, unfolding(crate::specs::Rounds::double_rounds))]
pub(crate) fn twenty_rounds(start: State) -> State
    ensures { result ≡ twenty_rounds start }
{
    let mut s = start;
    for _i in 0..DOUBLE_ROUNDS {
        column_round(&mut s);
        diagonal_round(&mut s);
    }
    s
}
