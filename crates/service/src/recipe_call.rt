ghost use Rattle.std.specs.Prelude.{◌≡◌};
ghost use Rattle.service.specs.declared.recipe_call.RecipeCall.TheVariants.{Ring};

use crate::call::Call;
use entries::Recipe;
use names::{Label, Stamp};

// A call on a ring of recipe entries: one that every ring has, or a growth.
#[derive(Clone, Copy, Debug, PartialEq, Eq)]
pub enum RecipeCall {
    Ring(Call<Recipe>),
    // copy, stamp, new directory, label, old directory: the parts of a growth, in the order in which the rules list them
    Grow(usize, Stamp, u32, Label, u32),
}

impl From<Call<Recipe>> for RecipeCall {
    ghost from_gives = { λ call made. made ≡ Ring call };

    fn from(call: Call<Recipe>) -> RecipeCall {
        Self::Ring(call)
    }
}
