ghost use Rattle.std.specs.Prelude.{◌≡◌, ◌&&◌, length, if◌then◌else◌, Some, None, nat_le};
ghost use Rattle.grounds.specs.Grounds.{by_number};
ghost use Rattle.ring.specs.Built.{state_of};
ghost use Rattle.ring.specs.Openings.{some_store, outside, bad_places, not_empty, open_check, checked_by, made_of};

use crate::opening::{NotOpened, Opening};
use crate::ring::Ring;
use entries::Dated;
use grounds::Ground;
use heads::Heads;
use letters::{Bag, Letter};
use std::marker::PhantomData;
use store::Bank;

// Whether a number is not 1 to so many.
fn is_outside(most: usize, number: usize) -> bool
    ensures { result ≡ outside most number }
{
    !(1..=most).contains(&number)
}

// How many stores there are, if 2 to 8.
fn count_copies<K: Dated, B: Bank<K>>(stores: &B) -> Option<usize>
    ensures { result ≡ (if nat_le 2 (length (B.Bank.meanings stores.now)) && nat_le (length (B.Bank.meanings stores.now)) 8 then Some (length (B.Bank.meanings stores.now)) else None) }
{
    if !stores.has(1) {
        return None;
    }
    (2..9).find(|copies| !stores.has(*copies))
}

// Whether a store has too few or too many places.
fn some_bad_places<K: Dated, B: Bank<K>>(stores: &B, copies: usize) -> bool
    requires { copies ≡ length (B.Bank.meanings stores.now) }
    ensures { result ≡ some_store bad_places (B.Bank.meanings stores.now) }
{
    (0..copies).any(|copy| is_outside(4096, stores.places(copy)))
}

// Whether a store holds a pair.
fn some_not_empty<K: Dated, B: Bank<K>>(stores: &B, copies: usize) -> bool
    requires { copies ≡ length (B.Bank.meanings stores.now) }
    ensures { result ≡ some_store not_empty (B.Bank.meanings stores.now) }
{
    (0..copies).any(|copy| stores.count(copy) != 0)
}

// How many copies a ring of these stores and this bag has, or the ground against it.
fn copies_of<K: Dated, B: Bank<K>, G: Bag<Letter<K>>>(stores: &B, bag: &G) -> Result<usize, Ground>
    ensures { by_number result ≡ (open_check (B.Bank.meanings stores.now) (G.Bag.mail bag.now)).0 }
{
    let copies = count_copies(stores).ok_or(Ground::CopyCount)?;
    if some_bad_places(stores, copies) || is_outside(1024, bag.places()) {
        return Err(Ground::PlacesOutOfRange);
    }
    if some_not_empty(stores, copies) {
        return Err(Ground::StoreNotEmpty);
    }
    Ok(copies)
}

impl<K: Dated, B: Bank<K>, G: Bag<Letter<K>>> Opening<K, B, G> {
    // Checks stores and bag for a new ring: 2 to 8 copies, places within their limits, empty stores.
    pub fn check(stores: B, bag: G) -> Result<Opening<K, B, G>, NotOpened<B, G>>
        ensures { checked_by B.Bank G.Bag result ≡ open_check (B.Bank.meanings stores) (G.Bag.mail bag) }
    {
        // no `?` here: a refusal gives the stores and the bag back
        match copies_of(&stores, &bag) {
            Ok(copies) => Ok(Opening {
                copies,
                stores,
                bag,
                kind: PhantomData,
            }),
            Err(ground) => Err(NotOpened {
                ground,
                stores,
                bag,
            }),
        }
    }

    // Makes the ring; letters that the bag still had are taken out.
    pub fn make(self) -> Ring<K, B, G>
        ensures { state_of B.Bank G.Bag result ≡ made_of B.Bank G.Bag self }
    {
        let Opening {
            copies,
            stores,
            mut bag,
            kind,
        } = self;
        bag.clear();
        Ring {
            copies,
            heads: Heads::new(),
            stores,
            bag,
            kind,
        }
    }
}
