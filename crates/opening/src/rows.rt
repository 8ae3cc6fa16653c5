// Two rows of items in one buffer, with room for as many items in each: the second row stands after all of the first.

ghost use Rattle.std.specs.Prelude.{◌≡◌, ◌+◌, ◌*◌, ◌^◌, ◌<◌, ◌++◌, length, take, drop};

// Where the next item of the second row stands: past the whole first row, and past those of its own that came before.
fn second_place<const A: usize, const B: usize>(count: u16, next: u16) -> usize
    requires place { next < count }
    requires room { (A + B) * count < 2 ^ 64 }
    ensures { result ≡ A * count + B * next }
{
    A * usize::from(count) + B * usize::from(next)
}

// Writes the next item of both rows.
pub(crate) fn write_item<const A: usize, const B: usize>(
    rows: &mut [u8],
    count: u16,
    next: u16,
    first: [u8; A],
    second: [u8; B],
)
    requires place { next < count }
    requires bytes { length rows.old ≡ (A + B) * count }
    ensures first { take (A * next + A) rows.new ≡ take (A * next) rows.old ++ first.entry }
    ensures second { take (B * next + B) (drop (A * count) rows.new) ≡ take (B * next) (drop (A * count) rows.old) ++ second.entry }
    ensures len { length rows.new ≡ length rows.old }
{
    let at = A * usize::from(next);
    let later = second_place::<A, B>(count, next);
    rows[at..at + A].copy_from_slice(&first);
    rows[later..later + B].copy_from_slice(&second);
}
