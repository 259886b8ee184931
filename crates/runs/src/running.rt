ghost use Rattle.std.specs.Prelude.{◌≡◌, map, MatchResult, OnOk};
ghost use Rattle.service.specs.Calls.{by_got, serving};
ghost use Rattle.runs.specs.Promise.{Promise};
ghost use Rattle.runs.specs.Runs.{IsRun, NotMade};

use crate::calling::follow;
use crate::ran::Ran;
use entries::Recipe;
use letters::{Bag, Letter};
use ring::Opening;
use service::{RecipeCall, Service, Trouble};
use std::alloc::Global;
use store::Bank;

// Opens a ring over the stores and the bag, and makes the calls on it, whatever they are and however many sweeps they
// begin. Answers, heads, stores, bag and sweeps are the machine's, and of every such run the promise holds.
pub fn run<B: Bank<Recipe> + Drop, G: Bag<Letter<Recipe>> + Drop>(
    heap: Global,
    stores: B,
    bag: G,
    calls: &[RecipeCall],
) -> Result<Ran<B, G>, Trouble>
    ensures machine { MatchResult result (λ ran. IsRun (B.Bank.meanings stores) (G.Bag.mail bag) calls.now (map by_got ran.answers.items) (serving B.Bank G.Bag ran.service)) (NotMade (B.Bank.meanings stores) (G.Bag.mail bag)) }
    ensures promise { OnOk result (Promise (B.Bank.meanings stores) (G.Bag.mail bag).places calls.now) }
{
    let opening = Opening::check(stores, bag)?;
    let mut service = Service::start(heap, opening);
    let answers = follow(heap, &mut service, calls)?;
    Ok(Ran { service, answers })
}
