ghost use Rattle.std.specs.Prelude.{◌≡◌};
ghost use Rattle.letters.specs.Blank.{blank_letter};

use entries::Joinable;
use names::{Path, Stamp};
use std::fmt;

// What a letter is about. Counted, entry, stored and noted are replies.
#[derive(Clone, Copy, Debug, PartialEq, Eq)]
pub enum Tag {
    News,
    Raise,
    Counted,
    Fetch,
    Entry,
    Put,
    Stored,
    Swept,
    Noted,
}

// In a word, for a person who reads a note.
impl fmt::Display for Tag {
    fn fmt<W: fmt::Write>(&self, f: &mut fmt::Formatter<W>) -> fmt::Result {
        f.write_str(match self {
            Tag::News => "news",
            Tag::Raise => "raise",
            Tag::Counted => "counted",
            Tag::Fetch => "fetch",
            Tag::Entry => "entry",
            Tag::Put => "put",
            Tag::Stored => "stored",
            Tag::Swept => "swept",
            Tag::Noted => "noted",
        })
    }
}

// A message from one copy to another. A field that the tag does not use is zero or blank.
#[derive(Clone, Copy, Debug, PartialEq, Eq)]
pub struct Letter<K> {
    pub tag: Tag,
    pub sender: usize,
    pub addressee: usize,
    pub stamp: Stamp,
    pub place: usize,
    pub count: usize,
    pub path: Path,
    pub entry: K,
}

impl<K: Joinable> Letter<K> {
    // What a place of lent memory may hold before a letter is put there: news of nothing, from copy 0 to itself.
    pub fn blank() -> Letter<K>
        ensures { result ≡ blank_letter K.Joinable.empty }
    {
        Letter {
            tag: Tag::News,
            sender: 0,
            addressee: 0,
            stamp: 0,
            place: 0,
            count: 0,
            path: Path::NONE,
            entry: K::blank(),
        }
    }
}
