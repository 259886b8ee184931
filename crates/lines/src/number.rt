ghost use Rattle.std.specs.Prelude.{◌≡◌};
ghost use Rattle.lines.specs.Numbers.{unpadded, read_number};

// Whether there is a byte, and no zero leads others.
fn is_unpadded(text: &[u8]) -> bool
    ensures { result ≡ unpadded text.now }
{
    match text {
        [] | [b'0', _, ..] => false,
        _ => true,
    }
}

// Reads a decimal number below 2^32 without leading zeros. Byte by byte: the library parses a text, which would first be
// gone through to see that it is one, and most lines have numbers.
pub(crate) fn read_number(text: &[u8]) -> Option<u32>
    ensures { result ≡ read_number text.now }
{
    if !is_unpadded(text) {
        return None;
    }
    let mut value: u32 = 0;
    'digits: for byte in text {
        if !byte.is_ascii_digit() {
            return None;
        }
        value = u32::try_from(u64::from(value) * 10 + u64::from(*byte - b'0')).ok()?;
    }
    Some(value)
}
