ghost use Rattle.std.specs.Prelude.{◌≡◌};
ghost use Rattle.std.specs.Option.{option_map};
ghost use Rattle.lines.specs.Asked.{of_request, asked_form, asked_by};

use crate::forms::{read_begin, read_grow, read_letter, read_lookup, read_mail, read_post};
use crate::reader::when_empty;
use crate::request::Request;

// Reads a line of the form that the letter picks, from the fields after it: the letters are listed here as the rules list
// them.
fn read_form(form: char, fields: &[u8]) -> Option<Request>
    ensures { option_map of_request result ≡ asked_form form fields.now }
{
    match form {
        'p' => read_post(fields),
        'g' => read_grow(fields),
        'l' => read_lookup(fields),
        'm' => read_mail(fields),
        'h' => read_letter(fields).map(Request::Hand),
        'x' => read_letter(fields).map(Request::Lose),
        'c' => read_letter(fields).map(Request::Collect),
        'k' => read_letter(fields).map(Request::Confirm),
        'b' => read_begin(fields),
        's' => when_empty(fields, Request::Press),
        'u' => when_empty(fields, Request::Spread),
        'f' => when_empty(fields, Request::Close),
        'z' => when_empty(fields, Request::Abandon),
        _ => None,
    }
}

// Reads a line, which comes without the byte 10 that ends it: what it asks for, or none where it is not of its form.
pub fn read_line(line: &[u8]) -> Option<Request>
    ensures { option_map of_request result ≡ asked_by line.now }
{
    let (form, fields) = line.strip_prefix(b"op=")?.split_first()?;
    read_form(char::from(*form), fields)
}
