use crate::held::Kept;
use entries::Dated;
use letters::{Bag, Letter};
use ring::{Opening, Ring};
use std::alloc::Global;
use store::Bank;

// A ring and the sweeps that its begins gave, by their numbers.
#[derive(Drop)]
pub struct Service<K, B, G> {
    pub(crate) ring: Ring<K, B, G>,
    pub(crate) sweeps: Vec<Kept>,
}

impl<K: Dated, B: Bank<K>, G: Bag<Letter<K>>> Service<K, B, G> {
    ghost use Rattle.std.specs.Prelude.{◌≡◌, []};
    ghost use Rattle.ring.specs.Openings.{made_of};
    ghost use Rattle.service.specs.Calls.{serving};

    // Makes the ring that was checked, with no sweep under way.
    pub fn start(heap: Global, opening: Opening<K, B, G>) -> Service<K, B, G>
        ensures { serving B.Bank G.Bag result ≡ (made_of B.Bank G.Bag opening, []) }
    {
        Service {
            ring: opening.make(),
            sweeps: Vec::new(heap),
        }
    }
}
