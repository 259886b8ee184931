// Writes to a recipe ring that a rights ring has to grant (docs/RULES.md, "Guarded writes").
#![tactic(auto)]

ghost use Rattle.std.specs.Prelude.{◌≡◌, ℕ, true, false, ◌↔◌, Some, Ok, Err, codes};
ghost use Rattle.grounds.specs.Grounds.{by_number};
ghost use Rattle.names.specs.Labels.{read_label};
ghost use Rattle.machine.specs.States.{no_copy};
ghost use Rattle.machine.specs.Posts.{post};
ghost use Rattle.ring.specs.Built.{state_of};
ghost use Rattle.ring.specs.Recipes.{recipes as recipe_kind};
ghost use Rattle.access.specs.Writes.{access_path, grants, granted_at, write};

use entries::{Dated, Recipe, Rights};
use grounds::Ground;
use letters::{Bag, Letter};
use names::{Label, Path};
use ring::Ring;
use store::Bank;

// The label under which the rights in a directory stand: `access`.
const ACCESS: Label = Label {
    number: 0x6163636573730000,
};

// Where the rights in a directory stand: under the one label `access`, which is what that text reads to.
pub fn access_path(directory: u32) -> Path
    ensures value { result ≡ access_path directory }
    ensures label { read_label (codes "access") ≡ Some result.first }
{
    Path::of_label(directory, ACCESS)
}

// Whether what is held grants the role.
fn grants(held: Option<Rights>, role: usize) -> bool
    ensures { result ≡ grants held role }
{
    held.is_some_and(|rights| rights.is_granted(role))
}

// Whether a copy of the rights ring grants the role in the directory.
fn is_granted<B: Bank<Rights>, G: Bag<Letter<Rights>>>(
    rights: &Ring<Rights, B, G>,
    copy: usize,
    role: usize,
    directory: u32,
) -> bool
    ensures { result ≡ granted_at (state_of B.Bank G.Bag rights.now) copy role directory }
{
    grants(rights.entry(copy, &access_path(directory)), role)
}

// Posts a recipe entry at a copy for a role, if the rights ring's entry at the same copy, where the rights in the path's
// directory stand, grants the role. The rights ring is only read.
// A write is accepted exactly when both rings have the copy, the role is granted and the post would be accepted, and then it
// is that post; a refused one leaves the ring as it was.
pub fn write<B: Bank<Recipe>, G: Bag<Letter<Recipe>>, C: Bank<Rights>, H: Bag<Letter<Rights>>>(
    recipes: &mut Ring<Recipe, B, G>,
    rights: &Ring<Rights, C, H>,
    copy: usize,
    role: usize,
    path: Path,
    entry: Recipe,
) -> Result<(), Ground>
    ensures machine { (by_number result, state_of B.Bank G.Bag recipes.new) ≡ write (state_of B.Bank G.Bag recipes.old) (state_of C.Bank H.Bag rights.now) copy role path entry }
    ensures posted { by_number result ≡ Ok tt → (by_number result, state_of B.Bank G.Bag recipes.new) ≡ post recipe_kind (state_of B.Bank G.Bag recipes.old) copy path entry }
    ensures exactly { (by_number result ≡ Ok tt) ↔ ((no_copy (state_of C.Bank H.Bag rights.now) copy ≡ false) × (granted_at (state_of C.Bank H.Bag rights.now) copy role path.directory ≡ true) × ((post recipe_kind (state_of B.Bank G.Bag recipes.old) copy path entry).0 ≡ Ok tt)) }
    ensures refused { (g : ℕ) → by_number result ≡ Err g → state_of B.Bank G.Bag recipes.new ≡ state_of B.Bank G.Bag recipes.old }
{
    if copy >= recipes.copies() || copy >= rights.copies() {
        return Err(Ground::NoSuchCopy);
    }
    if !path.is_sound() || !entry.is_sound() {
        return Err(Ground::NotSound);
    }
    if !is_granted(rights, copy, role, path.directory) {
        return Err(Ground::NotGranted);
    }
    recipes.post(copy, path, entry)
}
