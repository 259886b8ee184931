ghost use Rattle.std.specs.Prelude.{◌≡◌};
ghost use Rattle.std.specs.Option.{option_map};
ghost use Rattle.names.specs.Stamps.{stamp_at};
ghost use Rattle.lines.specs.Asked.{of_request, asked_post, asked_grow, asked_lookup, asked_mail, asked_begin, letter_number, post_from, grow_from, lookup_from, mail_from, begin_from};

use crate::name::labels::{read_name, read_path};
use crate::number::read_number;
use crate::reader::{field, last_field};
use crate::request::Request;
use crate::says::read_content;
use entries::Recipe;
use names::{Label, Stamp};

// The stamp of a time at a copy, as a number also for a copy that no ring has. It is not `names::stamp_at`, which takes a
// byte and promises that the server reads back.
fn stamp_of(time: u32, copy: u32) -> Stamp
    ensures { result ≡ stamp_at time copy }
{
    u64::from(time) * 256 + u64::from(copy)
}

// A post, from the values of its fields.
fn post_from(copy: &[u8], time: &[u8], dir: &[u8], path: &[u8], says: &[u8]) -> Option<Request>
    ensures { option_map of_request result ≡ post_from copy.now time.now dir.now path.now says.now }
{
    let copy = read_number(copy)?;
    let time = read_number(time)?;
    let directory = read_number(dir)?;
    let content = read_content(says)?;
    let path = read_path(directory, path);
    let entry = Recipe {
        stamp: stamp_of(time, copy),
        content,
    };
    Some(Request::Post(copy as usize, path, entry))
}

// The fields of a post.
pub(crate) fn read_post(fields: &[u8]) -> Option<Request>
    ensures { option_map of_request result ≡ asked_post fields.now }
{
    let (copy, fields) = field(fields, b" copy=")?;
    let (time, fields) = field(fields, b" time=")?;
    let (dir, fields) = field(fields, b" dir=")?;
    let (path, fields) = field(fields, b" path=")?;
    let says = last_field(fields, b" says=")?;
    post_from(copy, time, dir, path, says)
}

// A growth, from the values of its fields.
fn grow_from(copy: &[u8], time: &[u8], new: &[u8], label: &[u8], old: &[u8]) -> Option<Request>
    ensures { option_map of_request result ≡ grow_from copy.now time.now new.now label.now old.now }
{
    let copy = read_number(copy)?;
    let time = read_number(time)?;
    let new = read_number(new)?;
    let old = read_number(old)?;
    let stamp = stamp_of(time, copy);
    let label = Label::or_none(label);
    Some(Request::Grow(copy as usize, stamp, new, label, old))
}

// The fields of a growth.
pub(crate) fn read_grow(fields: &[u8]) -> Option<Request>
    ensures { option_map of_request result ≡ asked_grow fields.now }
{
    let (copy, fields) = field(fields, b" copy=")?;
    let (time, fields) = field(fields, b" time=")?;
    let (new, fields) = field(fields, b" new=")?;
    let (label, fields) = field(fields, b" label=")?;
    let old = last_field(fields, b" old=")?;
    grow_from(copy, time, new, label, old)
}

// A lookup, from the values of its fields.
fn lookup_from(copy: &[u8], start: &[u8], name: &[u8]) -> Option<Request>
    ensures { option_map of_request result ≡ lookup_from copy.now start.now name.now }
{
    let copy = read_number(copy)?;
    let start = read_number(start)?;
    let name = read_name(name, 8);
    Some(Request::Lookup(copy as usize, start, name))
}

// The fields of a lookup.
pub(crate) fn read_lookup(fields: &[u8]) -> Option<Request>
    ensures { option_map of_request result ≡ asked_lookup fields.now }
{
    let (copy, fields) = field(fields, b" copy=")?;
    let (start, fields) = field(fields, b" start=")?;
    let name = last_field(fields, b" name=")?;
    lookup_from(copy, start, name)
}

// A mail, from the values of its fields.
fn mail_from(from: &[u8], to: &[u8], place: &[u8]) -> Option<Request>
    ensures { option_map of_request result ≡ mail_from from.now to.now place.now }
{
    let from = read_number(from)?;
    let to = read_number(to)?;
    let place = read_number(place)?;
    Some(Request::Mail(from as usize, to as usize, place as usize))
}

// The fields of a mail.
pub(crate) fn read_mail(fields: &[u8]) -> Option<Request>
    ensures { option_map of_request result ≡ asked_mail fields.now }
{
    let (from, fields) = field(fields, b" from=")?;
    let (to, fields) = field(fields, b" to=")?;
    let place = last_field(fields, b" place=")?;
    mail_from(from, to, place)
}

// The begin of a sweep, from the values of its fields.
fn begin_from(copy: &[u8], time: &[u8]) -> Option<Request>
    ensures { option_map of_request result ≡ begin_from copy.now time.now }
{
    let copy = read_number(copy)?;
    let time = read_number(time)?;
    Some(Request::Begin(copy as usize, time))
}

// The fields of the begin of a sweep.
pub(crate) fn read_begin(fields: &[u8]) -> Option<Request>
    ensures { option_map of_request result ≡ asked_begin fields.now }
{
    let (copy, fields) = field(fields, b" copy=")?;
    let time = last_field(fields, b" time=")?;
    begin_from(copy, time)
}

// The number of a letter, where that is the only field.
pub(crate) fn read_letter(fields: &[u8]) -> Option<usize>
    ensures { result ≡ letter_number fields.now }
{
    let letter = last_field(fields, b" letter=")?;
    let number = read_number(letter)?;
    Some(number as usize)
}
