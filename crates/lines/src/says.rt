ghost use Rattle.std.specs.Prelude.{◌≡◌};
ghost use Rattle.lines.specs.Says.{link_in, content_by, content_in};

use crate::number::read_number;
use crate::reader::{first_place, when_empty};
use entries::Content;
use names::Label;

// Reads a link: a directory, a colon, and a label, which is all that follows the first colon.
fn read_link(text: &[u8]) -> Option<Content>
    ensures { result ≡ link_in text.now }
{
    let colon = first_place(text, b':')?;
    let directory = read_number(&text[..colon])?;
    let label = Label::or_none(&text[colon + 1..]);
    Some(Content::Link(directory, label))
}

// The content that a letter and the bytes after it stand for.
fn content_by(letter: char, rest: &[u8]) -> Option<Content>
    ensures { result ≡ content_by letter rest.now }
{
    match letter {
        'a' => when_empty(rest, Content::Absent),
        't' => when_empty(rest, Content::Node),
        'n' => read_number(rest).map(Content::Number),
        'd' => read_number(rest).map(Content::Directory),
        'l' => read_link(rest),
        _ => None,
    }
}

// Reads what a post says: its first letter decides; none for a text of none of the five forms.
pub(crate) fn read_content(text: &[u8]) -> Option<Content>
    ensures { result ≡ content_in text.now }
{
    let (letter, rest) = text.split_first()?;
    content_by(char::from(*letter), rest)
}
