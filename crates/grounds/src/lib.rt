// Why a call was refused: the twenty grounds, each with its number (docs/RULES.md, "Grounds of refusal").
#![tactic(auto)]

ghost use Rattle.std.specs.Prelude.{◌≡◌};
ghost use Rattle.grounds.specs.Grounds.{ground_number};

use std::error::Error;
use std::fmt;

#[derive(Clone, Copy, Debug, PartialEq, Eq)]
pub enum Ground {
    BadLine = 1,
    NoSuchSweep = 2,
    CopyCount = 3,
    PlacesOutOfRange = 4,
    StoreNotEmpty = 5,
    NoSuchCopy = 6,
    SameCopy = 7,
    NoSuchLetter = 8,
    NotAwaited = 9,
    PlaceNotHeld = 10,
    NotSound = 11,
    NotGranted = 12,
    WrongServer = 13,
    StampTooLow = 14,
    DirectoryInUse = 15,
    StoreFull = 16,
    BagFull = 17,
    NothingShown = 18,
    TooManyLinks = 19,
    MemoryTooShort = 20,
}

impl Ground {
    // The ground's number in the table, by which the rules and every report name it.
    pub fn number(self) -> u8
        ensures { result ≡ ground_number self }
    {
        self as u8
    }
}

// The ground in words, for a person who reads a note or a log.
impl fmt::Display for Ground {
    fn fmt<W: fmt::Write>(&self, f: &mut fmt::Formatter<W>) -> fmt::Result {
        f.write_str(match self {
            Ground::BadLine => "the line is not of the form",
            Ground::NoSuchSweep => "no sweep is held in the state needed, or one is held already",
            Ground::CopyCount => "a ring has 2 to 8 copies",
            Ground::PlacesOutOfRange =>
                "the places of a store or of the bag are outside their limits",
            Ground::StoreNotEmpty => "a store given to a new ring holds a pair",
            Ground::NoSuchCopy => "the ring has no such copy",
            Ground::SameCopy => "a copy does not mail to itself",
            Ground::NoSuchLetter => "the bag has no such letter",
            Ground::NotAwaited => "the letter is not the awaited one",
            Ground::PlaceNotHeld => "the place is not held",
            Ground::NotSound => "a path, name, label or entry is not sound",
            Ground::NotGranted => "the role is not granted",
            Ground::WrongServer => "the stamp is not of this copy",
            Ground::StampTooLow => "the stamp is too low for the copy's floor",
            Ground::DirectoryInUse => "the new directory is the old one or is used",
            Ground::StoreFull => "the store is full for a new path",
            Ground::BagFull => "the bag is full",
            Ground::NothingShown => "nothing is shown under the name",
            Ground::TooManyLinks => "a ninth link would be followed",
            Ground::MemoryTooShort => "the memory is shorter than the listing",
        })
    }
}

impl Error for Ground {}
