ghost use Rattle.std.specs.Prelude.{◌≡◌, ℕ, ◌+◌, ◌≤◌, false, length, take, Ok};
ghost use Rattle.grounds.specs.Grounds.{by_number};
ghost use Rattle.store.specs.Laws.{entry_of};
ghost use Rattle.reading.specs.Lookup.{reading_of, steps_of};
ghost use Rattle.reading.specs.Rules.{Exactly};
ghost use Rattle.listing.specs.Listing.{Lists};
ghost use Rattle.machine.specs.States.{store_of, no_copy};
ghost use Rattle.ring.specs.Recipes.{recipes, lookup_at, list_at};
ghost use Rattle.service.specs.Calls.{serving, Performs};
ghost use Rattle.service.specs.RecipeCalls.{of_recipe_call};

use crate::call::{Got, Trouble};
use crate::perform::nothing_got;
use crate::recipe_call::RecipeCall;
use crate::service::Service;
use entries::Recipe;
use grounds::Ground;
use letters::{Bag, Letter};
use listing::Listed;
use names::{Label, Stamp};
use reading::{Answer, Refusal};
use store::Bank;

// Rings of recipe entries in service.
impl<B: Bank<Recipe>, G: Bag<Letter<Recipe>>> Service<Recipe, B, G> {
    // Does one call: exactly its step on the plain machine, or nothing where it begins a sweep for which there was no memory.
    pub fn perform_recipe(&mut self, call: RecipeCall) -> Result<Got, Trouble>
        ensures { Performs recipes (of_recipe_call call) (serving B.Bank G.Bag self.old) result (serving B.Bank G.Bag self.new) }
    {
        match call {
            RecipeCall::Ring(call) => self.perform(call),
            RecipeCall::Grow(copy, stamp, new, label, old) => nothing_got(
                self.ring.grow(copy, stamp, new, label, old),
            ),
        }
    }

    // Reads a name at a copy, from a directory.
    pub fn lookup(&self, copy: usize, start: u32, name: &[Label]) -> Result<Answer, Refusal>
        ensures answer { reading_of result ≡ lookup_at (serving B.Bank G.Bag self.now).0 copy start name.now }
        ensures exactly { no_copy (serving B.Bank G.Bag self.now).0 copy ≡ false → Exactly (entry_of (store_of (serving B.Bank G.Bag self.now).0 copy)) start name.now (reading_of result) }
        ensures few { steps_of (reading_of result) ≤ length name.now + 8 }
    {
        self.ring.lookup(copy, start, name)
    }

    // Lists a directory at a copy into memory that the caller lends.
    pub fn list(&self, copy: usize, directory: u32, memory: &mut [Listed]) -> Result<usize, Ground>
        ensures answer { (by_number result, memory.new) ≡ list_at (serving B.Bank G.Bag self.now).0 copy directory memory.old }
        ensures listed { (n : ℕ) → by_number result ≡ Ok n → Lists (entry_of (store_of (serving B.Bank G.Bag self.now).0 copy)) directory (take n memory.new) }
    {
        self.ring.list(copy, directory, memory)
    }
}
