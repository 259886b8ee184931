// The plain machine: what each call on a ring does, in plain lists and numbers. The contracts of the built ring
// and the promises over whole runs cite these definitions (docs/RULES.md, "The ring" to "Sweeps").
#![tactic(auto)]

ghost use Rattle.machine.specs.Kinds.{kind_of};
ghost use Rattle.machine.specs.Refusals.{RefusedChangesNothing};

use entries::Dated;

// A call that is refused leaves ring, sweeps and bag as they were, for every kind of entry.
pub fn refused_calls_change_nothing<K: Dated>()
    ensures { RefusedChangesNothing (kind_of K.Joinable K.Dated.own) }
{}
