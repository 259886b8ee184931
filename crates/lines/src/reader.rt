ghost use Rattle.std.specs.Prelude.{◌≡◌, ◌+◌, ◌≤◌, ◌==◌, length, position, IfSome};
ghost use Rattle.std.specs.Option.{option_map};
ghost use Rattle.lines.specs.Fields.{before_byte, after_front, last_after_front, when_empty, cut_at};

// Where the first `sought` stands, if there is one.
pub(crate) fn first_place(text: &[u8], sought: u8) -> Option<usize>
    ensures { result ≡ position (λ b. b == sought) text.now }
{
    text.iter().position(|&byte| byte == sought)
}

// How many bytes come before the first `sought`: all of them where it does not occur.
pub fn before(text: &[u8], sought: u8) -> usize
    ensures value { result ≡ before_byte sought text.now }
    ensures inside { result ≤ length text.now }
{
    first_place(text, sought).unwrap_or(text.len())
}

// The place of the value after the front of its field, with which the text begins, as a start and a length:
// the value runs from the front to the next space or to the text's end.
fn place(text: &[u8], front: &[u8]) -> Option<(usize, usize)>
    ensures value { option_map (cut_at text.now) result ≡ after_front front.now text.now }
    ensures inside { IfSome result (λ place. place.0 + place.1 ≤ length text.now) }
{
    let value = text.strip_prefix(front)?;
    Some((front.len(), before(value, b' ')))
}

// Hands out the part of the text at a place, and what follows it.
fn part_and_rest(text: &[u8], place: (usize, usize)) -> (&[u8], &[u8])
    requires { place.0 + place.1 ≤ length text.now }
    ensures { (result.0.now, result.1.now) ≡ cut_at text.now place }
{
    let (start, length) = place;
    text[start..].split_at(length)
}

// The value after the front of its field, with which the text begins, and what follows the value.
pub(crate) fn field<'a>(text: &'a [u8], front: &[u8]) -> Option<(&'a [u8], &'a [u8])>
    ensures { option_map (λ parts. (parts.0.now, parts.1.now)) result ≡ after_front front.now text.now }
{
    let place = place(text, front)?;
    Some(part_and_rest(text, place))
}

// The value after the front of its field, which is all of the text.
pub(crate) fn last_field<'a>(text: &'a [u8], front: &[u8]) -> Option<&'a [u8]>
    ensures { option_map (λ value. value.now) result ≡ last_after_front front.now text.now }
{
    let (value, rest) = field(text, front)?;
    when_empty(rest, value)
}

// The value, where no byte is left.
pub(crate) fn when_empty<T: Drop>(rest: &[u8], value: T) -> Option<T>
    ensures { result ≡ when_empty rest.now value }
{
    if rest.is_empty() { Some(value) } else { None }
}
