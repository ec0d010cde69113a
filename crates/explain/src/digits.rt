// Bytes, spelt in hexadecimal.
ghost use Rattle.std.specs.Prelude.{◌≡◌, ◌-◌, ◌+◌, ◌*◌, ◌<◌, ◌≤◌, ◌⊎◌, length, IsOk, IfOk};

use crate::fields::{MAX_BYTES, NoFrame};

// The bytes that a line spells, at most as many as a frame has. They are written into `bytes`.
pub(crate) fn decode<'a>(line: &[u8], bytes: &'a mut [u8; MAX_BYTES]) -> Result<&'a [u8], NoFrame>
    ensures { IfOk result (λ read. length line.now ≡ 2 * length read.now) }
{
    let (pairs, []) = line.as_chunks::<2>() else {
        return Err(NoFrame);
    };
    let bytes = bytes.get_mut(..pairs.len()).ok_or(NoFrame)?;
    for (byte, &[high, low]) in bytes.iter_mut().zip(pairs) {
        *byte = digit(high)? * 16 + digit(low)?;
    }
    Ok(bytes)
}

// The value of a digit. Capital letters are none.
fn digit(character: u8) -> Result<u8, NoFrame>
    ensures decimal { 48 ≤ character → character ≤ 57 → result ≡ Ok (character - 48) }
    ensures letter { 97 ≤ character → character ≤ 102 → result ≡ Ok (character - 97 + 10) }
    ensures other { IsOk result → (48 ≤ character × character ≤ 57) ⊎ (97 ≤ character × character ≤ 102) }
    ensures bound { IfOk result (λ value. value < 16) }
{
    match character {
        b'0'..=b'9' => Ok(character - b'0'),
        b'a'..=b'f' => Ok(character - b'a' + 10),
        _ => Err(NoFrame),
    }
}
