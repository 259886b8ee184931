ghost use Rattle.std.specs.Prelude.{◌≡◌, Some};
ghost use Rattle.std.specs.Cmp.{IsTotalOrder};
ghost use Rattle.names.specs.Paths.{same_path, order_of};
ghost use Rattle.listing.specs.declared.listed.Listed.{Listed as Entry};

use entries::Content;
use names::Path;

// A shown path of a directory, with its content. They are compared by their paths alone.
#[derive(Clone, Copy, Debug)]
#[derive_where(PartialEq, Eq, PartialOrd, Ord)]
pub struct Listed {
    pub path: Path,
    #[derive_where(skip(EqHashOrd))]
    pub content: Content,
}

// What stands in a listing is compared by its path alone.
pub fn what_is_listed_is_compared_by_its_path()
    ensures equal { (x y : Entry) → ⟦<Listed as PartialEq>⟧.eq x y ≡ same_path x.path y.path }
    ensures ordered { (x y : Entry) → ⟦<Listed as Ord>⟧.cmp x y ≡ order_of x.path y.path }
    ensures partly { (x y : Entry) → ⟦<Listed as PartialOrd>⟧.partial_cmp x y ≡ Some (order_of x.path y.path) }
    ensures total { IsTotalOrder (λ (x y : Entry). order_of x.path y.path) }
{}
