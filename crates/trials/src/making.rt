// How the trials make names and entries.
use entries::{Content, Recipe};
use names::{Path, Stamp};
use scenes::path;

// The directory of the paths, unless another is named.
pub const RECIPES: u32 = 1;

// The path of one label, in a directory.
pub(crate) fn path_in(directory: u32, text: &[u8]) -> Path {
    path(directory, text, b"")
}

// The path rye.
pub(crate) fn rye() -> Path {
    path_in(RECIPES, b"rye")
}

// The path rye/turns.
pub(crate) fn turns() -> Path {
    path(RECIPES, b"rye", b"turns")
}

// An entry that says a number, with a stamp.
pub(crate) fn number_at(stamp: Stamp, number: u32) -> Recipe {
    Recipe {
        stamp,
        content: Content::Number(number),
    }
}
