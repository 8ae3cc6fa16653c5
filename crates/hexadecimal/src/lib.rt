// Bytes written as hexadecimal text: two digits a byte, 0 to 9 and a to f, the high one first.
#![tactic(auto)]

ghost use Rattle.std.specs.Prelude.{◌≡◌, ℕ, ◌<◌, IfOk, vec_items};
ghost use Rattle.std.specs.Option.{option_map};
ghost use Rattle.hexadecimal.specs.Digits.{digit_of, bytes_of};

use std::alloc::{AllocError, Global};

// The value of a digit.
pub fn digit(character: u8) -> Option<u8>
    ensures { result ≡ digit_of character }
{
    match character {
        b'0'..=b'9' => Some(character - b'0'),
        b'a'..=b'f' => Some(character - b'a' + 10),
        _ => None,
    }
}

// The bytes that a text writes, or none where it is no such text.
pub fn decode(heap: Global, text: &[u8]) -> Result<Option<Vec<u8>>, AllocError>
    ensures { IfOk result (λ o. option_map vec_items o ≡ bytes_of text.now) }
{
    let mut bytes = Vec::new(heap);
    let mut rest = text;
    while let [high, low, tail @ ..] = rest {
        let (Some(high), Some(low)) = (digit(*high), digit(*low)) else {
            return Ok(None);
        };
        bytes.push(16 * high + low)?;
        rest = tail;
    }
    Ok(rest.is_empty().then_some(bytes))
}
