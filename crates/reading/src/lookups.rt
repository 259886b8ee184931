ghost use Rattle.std.specs.Prelude.{◌≡◌, ◌+◌, ◌≤◌, length};
ghost use Rattle.store.specs.Laws.{entry_of};
ghost use Rattle.reading.specs.Lookup.{reading_of, steps_of, all_labels, sound_name, path_of, content_of, turn_at, walk, lookup_of};
ghost use Rattle.reading.specs.Rules.{Exactly};

use crate::shown::shown_content;
use entries::{Content, Recipe};
use grounds::Ground;
use names::{Label, Path};
use store::Readable;

// What a lookup found, and in how many steps.
#[derive(Clone, Copy, Debug, PartialEq, Eq)]
pub struct Answer {
    pub content: Content,
    pub steps: u32,
}

// Why a lookup was refused, and after how many steps.
#[derive(Clone, Copy, Debug, PartialEq, Eq)]
pub struct Refusal {
    pub ground: Ground,
    pub steps: u32,
}

// How a step goes on: into a directory, along a link, or not past the labels left.
#[derive(Clone, Copy, Debug, PartialEq, Eq)]
enum Turn {
    Enter(u32),
    Follow(u32, Label),
    End,
}

// The most labels of a name.
const MOST_LABELS: usize = 8;

// The most links that one lookup follows.
const MOST_LINKS: u32 = 8;

// Whether each is a label.
fn are_labels(name: &[Label]) -> bool
    ensures { result ≡ all_labels name.now }
{
    name.iter().all(Label::is_sound)
}

// Whether the name has 1 to 8 labels, and each is a label.
fn is_sound_name(name: &[Label]) -> bool
    ensures { result ≡ sound_name name.now }
{
    !name.is_empty() && name.len() <= MOST_LABELS && are_labels(name)
}

// The path that the labels form, where they are three or fewer.
fn path_of(directory: u32, first: Label, rest: &[Label]) -> Option<Path>
    ensures { result ≡ path_of directory first rest.now }
{
    let path = Path::of_label(directory, first);
    match rest {
        [] => Some(path),
        [second] => Some(Path {
            second: *second,
            ..path
        }),
        [second, third] => Some(Path {
            second: *second,
            third: *third,
            ..path
        }),
        _ => None,
    }
}

// The content that is shown under the path that the labels form.
fn content_of<S: Readable<Recipe>>(
    store: &S,
    directory: u32,
    first: Label,
    rest: &[Label],
) -> Option<Content>
    ensures { result ≡ content_of (entry_of (S.Readable.meaning store.now)) directory first rest.now }
{
    let path = path_of(directory, first, rest)?;
    shown_content(store, &path)
}

// How a step goes on from the first label left.
fn turn_at<S: Readable<Recipe>>(store: &S, directory: u32, first: Label) -> Turn
    ensures { result ≡ turn_at (entry_of (S.Readable.meaning store.now)) directory first }
{
    match shown_content(store, &Path::of_label(directory, first)) {
        Some(Content::Directory(into)) => Turn::Enter(into),
        Some(Content::Link(into, label)) => Turn::Follow(into, label),
        _ => Turn::End,
    }
}

// Walks over the labels from the directory `start`. The outer loop goes from label to label, the inner one
// from link to link, and each turn of the inner one is a step. The labels left show that the outer one ends, the links left that
// the inner one does; the steps are counted since the answer has them.
fn walk<S: Readable<Recipe>>(
    store: &S,
    start: u32,
    head: &Label,
    tail: &[Label],
) -> Result<Answer, Refusal>
    requires { length tail.now ≤ 7 }
    ensures walks { reading_of result ≡ walk (entry_of (S.Readable.meaning store.now)) tail.now 8 start head.now }
    ensures few { steps_of (reading_of result) ≤ length tail.now + 9 }
{
    let mut directory = start;
    let mut first = *head;
    let mut rest = tail;
    let mut links = MOST_LINKS;
    let mut steps: u32 = 0;
    'labels: loop {
        let into = 'links: loop {
            steps += 1;
            match turn_at(store, directory, first) {
                Turn::Enter(into) => break 'links into,
                Turn::Follow(into, label) => {
                    if links == 0 {
                        return Err(Refusal {
                            ground: Ground::TooManyLinks,
                            steps,
                        });
                    }
                    links -= 1;
                    directory = into;
                    first = label;
                }
                Turn::End => {
                    let content = content_of(store, directory, first, rest).ok_or(Refusal {
                        ground: Ground::NothingShown,
                        steps,
                    })?;
                    return Ok(Answer { content, steps });
                }
            }
        };
        let [next, after @ ..] = rest else {
            return Ok(Answer {
                content: Content::Directory(into),
                steps,
            });
        };
        directory = into;
        first = *next;
        rest = after;
    }
}

// Reads the name from the directory `start`. The answer is the one that the rules give, steps included.
pub fn lookup<S: Readable<Recipe>>(store: &S, start: u32, name: &[Label]) -> Result<Answer, Refusal>
    ensures answer { reading_of result ≡ lookup_of (entry_of (S.Readable.meaning store.now)) start name.now }
    ensures exactly { Exactly (entry_of (S.Readable.meaning store.now)) start name.now (reading_of result) }
    ensures few { steps_of (reading_of result) ≤ length name.now + 8 }
{
    match name {
        [first, rest @ ..] if is_sound_name(name) => walk(store, start, first, rest),
        _ => Err(Refusal {
            ground: Ground::NotSound,
            steps: 0,
        }),
    }
}
