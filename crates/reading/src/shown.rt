ghost use Rattle.std.specs.Prelude.{◌≡◌, true, ◌↔◌, Some};
ghost use Rattle.entries.specs.declared.recipe.Content.{Content as What};
ghost use Rattle.entries.specs.declared.recipe.Recipe.{Recipe as Said};
ghost use Rattle.store.specs.Laws.{entry_of};
ghost use Rattle.reading.specs.Shown.{unless_absent, belongs, below, shown_entry, shown, content_shown};
ghost use Rattle.reading.specs.Rules.{Shows, Holds};

use entries::{Content, Recipe};
use names::Path;
use store::Readable;

// The entry held under the path, unless it is absent.
#[tactic(auto, using(crate::proofs::Found::not_found, crate::proofs::Found::found))]
fn present_entry<S: Readable<Recipe>>(store: &S, path: &Path) -> Option<Recipe>
    ensures { result ≡ unless_absent (entry_of (S.Readable.meaning store.now) path.now) }
{
    let place = store.find(path)?;
    let found = store.entry_at(place);
    match found.content {
        Content::Absent => None,
        _ => Some(found),
    }
}

// Whether an entry belongs below the one that is shown above it: that one is not stamped higher.
fn belongs(above: &Recipe, own: &Recipe) -> bool
    ensures { result ≡ belongs above.now own.now }
{
    above.stamp <= own.stamp
}

// The entry that is shown under the path.
#[tactic(auto, using(crate::proofs::Shows::shown_rule))]
fn shown_entry<S: Readable<Recipe>>(store: &S, path: &Path) -> Option<Recipe>
    ensures { result ≡ shown_entry (entry_of (S.Readable.meaning store.now)) path.now }
{
    let own = present_entry(store, path)?;
    let Some(parent) = path.parent() else {
        return Some(own);
    };
    let above = shown_entry(store, &parent)?;
    belongs(&above, &own).then_some(own)
}

// The content that is shown under the path.
pub fn shown_content<S: Readable<Recipe>>(store: &S, path: &Path) -> Option<Content>
    ensures value { result ≡ content_shown (entry_of (S.Readable.meaning store.now)) path.now }
    ensures exactly { (k : What) → (result ≡ Some k) ↔ Holds (entry_of (S.Readable.meaning store.now)) path.now k }
{
    shown_entry(store, path).map(|own| own.content)
}

// Whether an entry is shown under the path.
#[tactic(auto, using(crate::proofs::Shows::shown_exactly))]
pub fn is_shown<S: Readable<Recipe>>(store: &S, path: &Path) -> bool
    ensures value { result ≡ shown (entry_of (S.Readable.meaning store.now)) path.now }
    ensures exactly { (result ≡ true) ↔ ((e : Said) × Shows (entry_of (S.Readable.meaning store.now)) path.now e) }
{
    shown_entry(store, path).is_some()
}
