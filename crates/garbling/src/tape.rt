// The random tape: what an opening draws, from the bytes drawn.

ghost use Rattle.std.specs.Prelude.{◌≡◌, true, false};
ghost use Rattle.garbling.specs.Tape.{need, coloured, offset_in, input_in, dice_in};

use gate::shift;
use label::{Label, label_at};
use slices::item_or;

// How many bytes an opening draws, for this many inputs and garbled gates.
pub fn tape_need(inputs: u16, garbled: u16) -> usize
    ensures { result ≡ need inputs garbled }
{
    16 + 17 * usize::from(inputs) + usize::from(garbled)
}

// A label with its colour set to this bit.
fn set_colour(label: Label, colour: bool) -> Label
    ensures { result ≡ coloured colour label }
{
    (label.0 / 2 * 2 + u64::from(colour), label.1)
}

// The offset: the first label drawn, of colour 1.
pub fn draw_offset(drawn: &[u8]) -> Label
    ensures { result ≡ offset_in drawn.now }
{
    set_colour(label_at(drawn, 0), true)
}

// The false label of an input: one of colour 0, with the offset added where the permute bit is set.
pub(crate) fn draw_input(drawn: &[u8], wire: u16) -> Label
    ensures { result ≡ input_in drawn.now wire }
{
    let at = 16 + 17 * u32::from(wire);
    let label = label_at(drawn, at);
    let permute = item_or(drawn, 32 + 17 * usize::from(wire), 0) % 2 == 1;
    shift(draw_offset(drawn), set_colour(label, false), permute)
}

// The dice byte of a garbled gate, by its number among them.
pub(crate) fn draw_dice(drawn: &[u8], inputs: u16, gate: u16) -> u8
    ensures { result ≡ dice_in drawn.now inputs gate }
{
    item_or(drawn, 16 + 17 * usize::from(inputs) + usize::from(gate), 0)
}
