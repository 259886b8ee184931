// What the copies of a ring agree on after any list of calls, proved of the plain machine
// (docs/RULES.md, "What copies agree on").
#![tactic(auto)]

ghost use Rattle.machine.specs.Kinds.{kind_of};
ghost use Rattle.agreement.specs.Agreement.{Agreement, AnyOrder, FinishedEverywhere, StoresSound};
ghost use Rattle.agreement.specs.Example.{Example};

use entries::Dated;

// For every kind of entry, every ring and every list of calls: two copies miss nothing of what is stamped below
// the lower of their sweep stamps, and hold its join alike.
pub fn copies_agree_below_their_sweep_stamps<K: Dated>()
    ensures agreement { Agreement (kind_of K.Joinable K.Dated.own) }
    ensures any_order { AnyOrder (kind_of K.Joinable K.Dated.own) }
    ensures finished_everywhere { FinishedEverywhere (kind_of K.Joinable K.Dated.own) }
    ensures stores_sound { StoresSound (kind_of K.Joinable K.Dated.own) }
{}

// One such list of calls, with a lost letter and letters handed twice: the sweep is finished, and all three copies
// hold the join of what two of them were told.
pub fn a_sweep_brings_three_copies_together()
    ensures { Example }
{}
