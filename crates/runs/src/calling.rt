ghost use Rattle.std.specs.Prelude.{◌≡◌, true, map, IfOk, MatchResult};
ghost use Rattle.machine.specs.Worlds.{step};
ghost use Rattle.ring.specs.Recipes.{recipes};
ghost use Rattle.service.specs.Calls.{by_got, is_begin, serving, world_of, seen};
ghost use Rattle.service.specs.RecipeCalls.{of_recipe_call};
ghost use Rattle.runs.specs.Runs.{runs_from};

use entries::Recipe;
use grounds::Ground;
use letters::{Bag, Letter};
use service::{Got, RecipeCall, Service, Trouble};
use std::alloc::{AllocError, Global};
use store::Bank;

// Makes one call of a run: exactly its step on the plain machine, or nothing where it begins a sweep for which there was
// no memory.
pub fn make_call<B: Bank<Recipe>, G: Bag<Letter<Recipe>>>(
    service: &mut Service<Recipe, B, G>,
    call: RecipeCall,
) -> Result<Result<Got, Ground>, AllocError>
    ensures { MatchResult result (λ a. (by_got a, serving B.Bank G.Bag service.new) ≡ seen (step recipes (of_recipe_call call) (world_of (serving B.Bank G.Bag service.old)))) (λ _. (is_begin (of_recipe_call call) ≡ true) × (serving B.Bank G.Bag service.new ≡ serving B.Bank G.Bag service.old)) }
{
    // no `?` here: a refusal is an answer of the run, and want of memory alone an error
    match service.perform_recipe(call) {
        Ok(got) => Ok(Ok(got)),
        Err(Trouble::Refused(ground)) => Ok(Err(ground)),
        Err(Trouble::NoMemory) => Err(AllocError),
    }
}

// Makes the calls one after another, and keeps their answers.
pub(crate) fn follow<B: Bank<Recipe>, G: Bag<Letter<Recipe>>>(
    heap: Global,
    service: &mut Service<Recipe, B, G>,
    calls: &[RecipeCall],
) -> Result<Vec<Result<Got, Ground>>, AllocError>
    ensures { IfOk result (λ v. (map by_got v.items, serving B.Bank G.Bag service.new) ≡ runs_from (serving B.Bank G.Bag service.old) calls.now) }
{
    let mut answers = Vec::new(heap);
    'calls: for call in calls {
        answers.reserve(1)?;
        let answer = make_call(service, *call)?;
        answers.push_reserved(answer);
    }
    Ok(answers)
}
