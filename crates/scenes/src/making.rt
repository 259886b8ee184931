ghost use Rattle.std.specs.Prelude.{◌≡◌};
ghost use Rattle.scenes.specs.Making.{path_of, said_at};

use entries::{Content, Recipe};
use names::{Label, Path, stamp_at};

// The path of a recipe, or of one of its values.
pub fn path(directory: u32, recipe: &[u8], value: &[u8]) -> Path
    ensures { result ≡ path_of directory recipe.now value.now }
{
    Path {
        second: Label::or_none(value),
        ..Path::of_label(directory, Label::or_none(recipe))
    }
}

// What the copy `server` says at a time.
pub fn said(time: u32, server: u8, content: Content) -> Recipe
    ensures { result ≡ said_at time server content }
{
    Recipe {
        stamp: stamp_at(time, server),
        content,
    }
}
