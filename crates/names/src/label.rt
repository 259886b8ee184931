ghost use Rattle.std.specs.List.{list_all};
ghost use Rattle.std.specs.Prelude.{◌≡◌, ℕ, ◌-◌, ◌≤◌, true, ◌↔◌, List, ◌++◌, length, replicate, position, IfOk, Some, ◌==◌};
ghost use Rattle.names.specs.declared.label.Label.{Label as Kept};
ghost use Rattle.names.specs.Labels.{label_byte, label_length, label_text, read_label, label_or_none, is_read, is_label, until_zero, text_of, shown_label};

use std::alloc::{AllocError, Global};
use std::{fmt, str};

// A label, as the number that it is kept as: its bytes, the first highest, and zeros after them.
// A value may hold any number, also one that no label has; `is_sound` tells. 0 stands for no label.
#[derive(Clone, Copy, Debug, PartialEq, Eq, PartialOrd, Ord)]
pub struct Label {
    pub number: u64,
}

// Whether a label may have the byte: a to z, 0 to 9 or the hyphen.
fn is_label_byte(byte: u8) -> bool
    ensures { result ≡ label_byte byte }
{
    byte.is_ascii_lowercase() || byte.is_ascii_digit() || byte == b'-'
}

// Whether a label may have each of the bytes.
fn are_label_bytes(text: &[u8]) -> bool
    ensures { result ≡ list_all label_byte text.now }
{
    text.iter().all(|&byte| is_label_byte(byte))
}

// Whether a label may have so many bytes: 1 to 8.
fn is_label_length(length: usize) -> bool
    ensures { result ≡ label_length length }
{
    1 <= length && length <= 8
}

// Whether the bytes are the text of a label.
fn is_label_text(text: &[u8]) -> bool
    ensures { result ≡ label_text text.now }
{
    is_label_length(text.len()) && are_label_bytes(text)
}

// The bytes of a text, and zeros after them: eight in all.
fn with_zeros(text: &[u8]) -> [u8; 8]
    requires { length text.now ≤ 8 }
    ensures { result ≡ text.now ++ replicate (8 - length text.now) 0 }
{
    let mut bytes = [0; 8];
    bytes[..text.len()].copy_from_slice(text);
    bytes
}

// Where the first zero stands among the bytes, if there is one: the library's call by a name, which the next function's
// proof cites.
fn first_zero(bytes: &[u8]) -> Option<usize>
    ensures { result ≡ position (λ b. b == 0) bytes.now }
{
    bytes.iter().position(|&byte| byte == 0)
}

// The bytes before the first zero.
fn before_zero(bytes: &[u8]) -> &[u8]
    ensures { result.now ≡ until_zero bytes.now }
{
    match first_zero(bytes) {
        Some(end) => &bytes[..end],
        None => bytes,
    }
}

impl Label {
    // No label: what a path has where it uses fewer than three.
    pub const NONE: Label = Label { number: 0 };

    // Reads a label from its text, 1 to 8 bytes out of a to z, 0 to 9 and the hyphen.
    // Writing what was read gives the same text again.
    pub fn read(text: &[u8]) -> Option<Label>
        ensures value { result ≡ read_label text.now }
        ensures written { (l : Kept) → result ≡ Some l → text_of l.number ≡ text.now }
    {
        if !is_label_text(text) {
            return None;
        }
        Some(Label {
            number: u64::from_be_bytes(with_zeros(text)),
        })
    }

    // The label with that text, or no label for a text that is none's.
    pub fn or_none(text: &[u8]) -> Label
        ensures { result ≡ label_or_none text.now }
    {
        Label::read(text).unwrap_or(Label::NONE)
    }

    // The label's text, as bytes; of a number that is no label, its bytes before the first zero.
    pub fn write(&self, heap: Global) -> Result<Vec<u8>, AllocError>
        ensures { IfOk result (λ v. v.items ≡ text_of self.now.number) }
    {
        let bytes = self.number.to_be_bytes();
        Vec::from_slice(heap, before_zero(&bytes))
    }

    // Whether the text reads to this label.
    fn is_read_from(&self, text: &[u8]) -> bool
        ensures { result ≡ is_read (read_label text.now) self.now.number }
    {
        Label::read(text).is_some_and(|label| label.number == self.number)
    }

    // Whether the number is that of a label, which is so exactly when some text reads to it.
    pub fn is_sound(&self) -> bool
        ensures value { result ≡ is_label self.now.number }
        ensures exactly { (result ≡ true) ↔ ((bs : List ℕ) × (read_label bs ≡ Some self.now)) }
    {
        let bytes = self.number.to_be_bytes();
        self.is_read_from(before_zero(&bytes))
    }
}

// Labels are equal exactly when their numbers are.
pub fn labels_are_equal_when_their_numbers_are()
    ensures { (a b : Kept) → ⟦<Label as PartialEq>⟧.eq a b ≡ (a.number == b.number) }
{}

// A label is shown as its text, and a number that is no label as `?`.
impl fmt::Display for Label {
    ghost output = { λ l. Some (shown_label l.number) };

    fn fmt<W: fmt::Write>(&self, f: &mut fmt::Formatter<W>) -> fmt::Result {
        if !self.is_sound() {
            return f.pad("?");
        }
        let bytes = self.number.to_be_bytes();
        match str::from_utf8(before_zero(&bytes)) {
            Ok(text) => f.pad(text),
            Err(_) => f.pad("?"),
        }
    }
}
