ghost use Rattle.std.specs.Prelude.{string_bytes, MatchResult};
ghost use Rattle.replaying.specs.Replays.{OpensTo};
ghost use Rattle.runs.specs.Runs.{NotMade};

use crate::reporting::reported;
use entries::Recipe;
use letters::{Bag, Letter};
use ring::Opening;
use service::{Service, Trouble};
use std::alloc::Global;
use store::Bank;

// Opens a ring over the stores and the bag, and replays the input on it. They are two parameters, as an opening takes them.
pub(crate) fn replayed_over<B: Bank<Recipe> + Drop, G: Bag<Letter<Recipe>> + Drop>(
    heap: Global,
    stores: B,
    bag: G,
    input: &[u8],
) -> Result<String, Trouble>
    ensures { MatchResult result (λ s. OpensTo (B.Bank.meanings stores) (G.Bag.mail bag) input.now (string_bytes s)) (NotMade (B.Bank.meanings stores) (G.Bag.mail bag)) }
{
    let opening = Opening::check(stores, bag)?;
    let mut service = Service::start(heap, opening);
    Ok(reported(heap, &mut service, input)?)
}
