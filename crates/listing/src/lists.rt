ghost use Rattle.std.specs.Prelude.{◌≡◌, ℕ, ◌≤◌, length, take, Ok};
ghost use Rattle.grounds.specs.Grounds.{by_number};
ghost use Rattle.store.specs.Meaning.{path_at};
ghost use Rattle.store.specs.Laws.{entry_of};
ghost use Rattle.listing.specs.Listing.{pick, all_picks, written, list_answer, list_after, Lists, ListingsReadAlike};

use crate::listed::Listed;
use entries::Recipe;
use grounds::Ground;
use reading::shown_content;
use store::Readable;

// The path at a place with its content, where it lies in the directory and is shown.
fn pick<S: Readable<Recipe>>(store: &S, directory: u32, place: usize) -> Option<Listed>
    ensures { result ≡ pick (entry_of (S.Readable.meaning store.now)) directory (path_at (S.Readable.meaning store.now) place) }
{
    let path = store.path_at(place);
    if path.directory != directory {
        return None;
    }
    let content = shown_content(store, &path)?;
    Some(Listed { path, content })
}

// How many paths of the directory are shown.
fn count_shown<S: Readable<Recipe>>(store: &S, directory: u32) -> usize
    ensures { result ≡ length (all_picks (S.Readable.meaning store.now) directory) }
{
    (0..store.count())
        .filter_map(|place| pick(store, directory, place))
        .count()
}

// Writes the shown paths of the directory to the front of the memory, in the order in which they came.
fn write_shown<S: Readable<Recipe>>(store: &S, directory: u32, memory: &mut [Listed])
    requires { length (all_picks (S.Readable.meaning store.now) directory) ≤ length memory.old }
    ensures { memory.new ≡ written (all_picks (S.Readable.meaning store.now) directory) memory.old }
{
    // counted by hand: a `for` over a chain whose closure holds a generic store gets no proof
    let mut total = 0;
    'places: for place in 0..store.count() {
        if let Some(listed) = pick(store, directory, place) {
            memory[total] = listed;
            total += 1;
        }
    }
}

// Lists the directory: each shown path with its content, ascending, from the first element of the memory on. The
// answer is how many there are. A memory that is shorter is refused and not written.
pub fn list<S: Readable<Recipe>>(
    store: &S,
    directory: u32,
    memory: &mut [Listed],
) -> Result<usize, Ground>
    ensures answer { by_number result ≡ list_answer (S.Readable.meaning store.now) directory memory.old }
    ensures after { memory.new ≡ list_after (S.Readable.meaning store.now) directory memory.old }
    ensures listed { (n : ℕ) → by_number result ≡ Ok n → Lists (entry_of (S.Readable.meaning store.now)) directory (take n memory.new) }
{
    let total = count_shown(store, directory);
    if memory.len() < total {
        return Err(Ground::MemoryTooShort);
    }
    write_shown(store, directory, memory);
    memory[0..total].sort_unstable();
    Ok(total)
}

// Two stores that hold the same entries list every directory alike into equal memories, whatever the order in which
// the entries came.
pub fn listings_read_alike()
    ensures { ListingsReadAlike }
{}
