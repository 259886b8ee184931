ghost use Rattle.std.specs.Prelude.{◌≡◌, ℕ, ◌+◌, ◌≤◌, false, length, take, Ok};
ghost use Rattle.grounds.specs.Grounds.{by_number};
ghost use Rattle.store.specs.Laws.{entry_of};
ghost use Rattle.reading.specs.Lookup.{reading_of, steps_of};
ghost use Rattle.reading.specs.Rules.{Exactly};
ghost use Rattle.reading.specs.Growth.{used_in};
ghost use Rattle.machine.specs.States.{store_of, no_copy};
ghost use Rattle.ring.specs.Built.{state_of};
ghost use Rattle.listing.specs.Listing.{Lists};
ghost use Rattle.ring.specs.Recipes.{grow, lookup_at, list_at};

use crate::ring::Ring;
use entries::{Content, Joinable, Recipe};
use grounds::Ground;
use letters::{Bag, Letter};
use listing::{Listed, list};
use names::{Label, Path, Stamp};
use reading::{Answer, Refusal, is_used, lookup};
use store::{Bank, OneStore};

// Rings of recipe entries.
impl<B: Bank<Recipe>, G: Bag<Letter<Recipe>>> Ring<Recipe, B, G> {
    // Whether the copy uses the directory.
    fn uses(&self, copy: usize, directory: u32) -> bool
        ensures { result ≡ used_in directory (store_of (state_of B.Bank G.Bag self.now) copy).pairs }
    {
        is_used(&OneStore::of(&self.stores, copy), directory)
    }

    // Sets a new directory above an old one: posts, under the label in the new one, the old one.
    pub fn grow(
        &mut self,
        copy: usize,
        stamp: Stamp,
        new: u32,
        label: Label,
        old: u32,
    ) -> Result<(), Ground>
        ensures { (by_number result, state_of B.Bank G.Bag self.new) ≡ grow (state_of B.Bank G.Bag self.old) copy stamp new label old }
    {
        let path = Path::of_label(new, label);
        let entry = Recipe {
            stamp,
            content: Content::Directory(old),
        };
        self.check_update(copy, &path, &entry)?;
        if new == old || self.uses(copy, new) {
            return Err(Ground::DirectoryInUse);
        }
        self.check_place(copy, &path)?;
        let _ = self.stores.join(copy, path, entry);
        Ok(())
    }

    // Reads a name at a copy, from a directory. A name is found exactly when the rules show an entry there.
    pub fn lookup(&self, copy: usize, start: u32, name: &[Label]) -> Result<Answer, Refusal>
        ensures answer { reading_of result ≡ lookup_at (state_of B.Bank G.Bag self.now) copy start name.now }
        ensures exactly { no_copy (state_of B.Bank G.Bag self.now) copy ≡ false → Exactly (entry_of (store_of (state_of B.Bank G.Bag self.now) copy)) start name.now (reading_of result) }
        ensures few { steps_of (reading_of result) ≤ length name.now + 8 }
    {
        if copy >= self.copies {
            return Err(Refusal {
                ground: Ground::NoSuchCopy,
                steps: 0,
            });
        }
        lookup(&OneStore::of(&self.stores, copy), start, name)
    }

    // Lists a directory at a copy: its shown paths with their contents, in path order, to the front of the memory.
    pub fn list(&self, copy: usize, directory: u32, memory: &mut [Listed]) -> Result<usize, Ground>
        ensures answer { (by_number result, memory.new) ≡ list_at (state_of B.Bank G.Bag self.now) copy directory memory.old }
        ensures listed { (n : ℕ) → by_number result ≡ Ok n → Lists (entry_of (store_of (state_of B.Bank G.Bag self.now) copy)) directory (take n memory.new) }
    {
        self.check_copy(copy)?;
        list(&OneStore::of(&self.stores, copy), directory, memory)
    }
}
