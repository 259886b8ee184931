ghost use Rattle.store.specs.Meaning.{Sound};
ghost use Rattle.store.specs.Laws.{RefusedExactlyWhenFull, RefusedChangesNothing, FoundAtItsPlace, HoldsOldJoinNew, OthersStay, PlacesStay, AgainChangesNothing, EitherOrder, FoundIsHeld, HeldIsFound, PastTheEnd};

use crate::store::Readable;
use entries::Joinable;

// No store holds a path twice, or more pairs than it has places, whatever was joined into it.
pub fn every_store_holds_each_path_once_within_its_places<K: Joinable, S: Readable<K>>(store: &S)
    ensures { Sound (S.Readable.meaning store.now) }
{}

// What a join does to a store, for every kind of entry: the laws of specs/Laws.antt, one to a clause.
pub fn joins_settle_their_own_path_alone<K: Joinable>()
    ensures refused_when_full { RefusedExactlyWhenFull K.Joinable.joined }
    ensures refused_changes_nothing { RefusedChangesNothing K.Joinable.joined }
    ensures found_at_its_place { FoundAtItsPlace K.Joinable.joined }
    ensures holds_old_join_new { HoldsOldJoinNew K.Joinable.joined }
    ensures others_stay { OthersStay K.Joinable.joined }
    ensures places_stay { PlacesStay K.Joinable.joined }
    ensures again_changes_nothing { AgainChangesNothing K.Joinable.joined }
    ensures either_order { EitherOrder K.Joinable.joined }
{}

// What find answers: the one place where the path and its entry stand.
pub fn find_tells_the_one_place_of_a_path<K: Joinable>()
    ensures found_is_held { FoundIsHeld K.Joinable.empty }
    ensures held_is_found { HeldIsFound K.Joinable.empty }
    ensures past_the_end { PastTheEnd K.Joinable.empty }
{}
