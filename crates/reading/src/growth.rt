ghost use Rattle.std.specs.Prelude.{◌≡◌, false, ◌↔◌};
ghost use Rattle.entries.specs.Recipes.{blank_recipe};
ghost use Rattle.store.specs.Meaning.{path_at, entry_at};
ghost use Rattle.reading.specs.Growth.{names_directory, uses, used_in, Unused, OutsideAsBefore, InsideOneStepLater, LookupsReadAlike};

use entries::{Content, Recipe};
use store::Readable;

// Whether the content is the directory or a link into it.
fn names_directory(content: &Content, directory: u32) -> bool
    ensures { result ≡ names_directory directory content.now }
{
    match content {
        Content::Directory(other) | Content::Link(other, _) => *other == directory,
        _ => false,
    }
}

// Whether the pair at the place lies in the directory or names it.
fn uses<S: Readable<Recipe>>(store: &S, place: usize, directory: u32) -> bool
    ensures { result ≡ uses directory (path_at (S.Readable.meaning store.now) place, entry_at blank_recipe (S.Readable.meaning store.now) place) }
{
    let path = store.path_at(place);
    let said = store.entry_at(place);
    path.directory == directory || names_directory(&said.content, directory)
}

// Whether the store uses the directory: a path lies in it, or a content is the directory or a link into it.
pub fn is_used<S: Readable<Recipe>>(store: &S, directory: u32) -> bool
    ensures value { result ≡ used_in directory (S.Readable.meaning store.now).pairs }
    ensures unused { (result ≡ false) ↔ Unused directory (S.Readable.meaning store.now).pairs }
{
    (0..store.count()).any(|place| uses(store, place, directory))
}

// A growth sets a new directory, which the store does not use, above an old one: lookups begun elsewhere answer as
// before, and in the new directory its label leads to the old one in one step.
pub fn growth_puts_a_root_above_an_old_one()
    ensures outside { OutsideAsBefore }
    ensures inside { InsideOneStepLater }
{}

// Two stores that hold the same entries answer every lookup alike, whatever the order in which the entries came.
pub fn lookups_read_alike()
    ensures { LookupsReadAlike }
{}
