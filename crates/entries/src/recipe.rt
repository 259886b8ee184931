ghost use Rattle.std.specs.Prelude.{◌≡◌};
ghost use Rattle.entries.specs.Recipes.{values_of, order_of_entries, blank_recipe, join_recipes, stamp_of, sound_recipe};
ghost use Rattle.entries.specs.Keys.{recipes_commute, recipes_associate};
ghost use Rattle.std.proofs.Common.{rules};
ghost use Rattle.entries.specs.declared.recipe.Recipe.{Recipe as Entry};

use crate::kind::{Dated, Joinable};
use names::{Label, Stamp};
use std::fmt;

// What an entry says of its path.
#[derive(Clone, Copy, Debug, PartialEq, Eq, PartialOrd, Ord)]
pub enum Content {
    // withdrawn: a tombstone, which is kept so that an older entry does not come back
    Absent,
    // there, with nothing to say but what lies below it
    Node,
    // a number, as a count of turns
    Number(u32),
    // another directory, entered by this name
    Directory(u32),
    // another name for what stands in the directory under the label
    Link(u32, Label),
}

impl Content {
    // The mark that tells the five contents apart, a number since the rules order contents by it.
    pub fn mark(&self) -> u8
        ensures { result ≡ (values_of self.now).0 }
    {
        match self {
            Content::Absent => 0,
            Content::Node => 1,
            Content::Number(_) => 2,
            Content::Directory(_) => 3,
            Content::Link(_, _) => 4,
        }
    }

    // The number or the directory, or 0.
    pub fn number(&self) -> u32
        ensures { result ≡ (values_of self.now).1 }
    {
        match self {
            Content::Absent | Content::Node => 0,
            Content::Number(number) => *number,
            Content::Directory(directory) | Content::Link(directory, _) => *directory,
        }
    }

    // The number of a link's label, or 0.
    pub fn label(&self) -> u64
        ensures { result ≡ (values_of self.now).2 }
    {
        match self {
            Content::Link(_, label) => label.number,
            _ => 0,
        }
    }
}

// In words, for a person who reads a note.
impl fmt::Display for Content {
    fn fmt<W: fmt::Write>(&self, f: &mut fmt::Formatter<W>) -> fmt::Result {
        match self {
            Content::Absent => f.write_str("absent"),
            Content::Node => f.write_str("node"),
            Content::Number(number) => write!(f, "number {number}"),
            Content::Directory(directory) => write!(f, "directory {directory}"),
            Content::Link(directory, label) => write!(
                f,
                "link to {label} in directory {directory}"
            ),
        }
    }
}

// An entry of the recipe directories.
#[derive(Clone, Copy, Debug, PartialEq, Eq, PartialOrd, Ord)]
pub struct Recipe {
    pub stamp: Stamp,
    pub content: Content,
}

// Of two entries the one with the later stamp is the greater; of two with one stamp, the one with the greater content: by
// its mark, then its number or directory, then its label.
pub fn recipes_are_compared_by_their_keys()
    ensures { (a b : Entry) → ⟦<Recipe as Ord>⟧.cmp a b ≡ order_of_entries a b }
{}

impl Joinable for Recipe {
    ghost empty = { blank_recipe };

    ghost joined = { join_recipes };

    ghost idempotent = { Prim.search rules };

    ghost commutative = { recipes_commute };

    ghost associative = { recipes_associate };

    fn blank() -> Recipe {
        Recipe {
            stamp: 0,
            content: Content::Absent,
        }
    }

    fn join(self, other: Recipe) -> Recipe {
        self.max(other)
    }
}

impl Dated for Recipe {
    ghost dated = { stamp_of };

    ghost formed = { sound_recipe };

    fn stamp(&self) -> Stamp {
        self.stamp
    }

    fn is_sound(&self) -> bool {
        if self.stamp >= 1 << 40 {
            return false;
        }
        match &self.content {
            Content::Link(_, label) => label.is_sound(),
            _ => true,
        }
    }
}
