ghost use Rattle.std.specs.Prelude.{◌≤◌};

use heads::Heads;
use std::marker::PhantomData;

// A group of copies (replicas), 2 to 8, numbered from 0: the head and the store of each, and the letters in the bag.
#[derive(Drop)]
pub struct Ring<K, B, G> {
    pub(crate) copies: usize,
    pub(crate) heads: Heads,
    pub(crate) stores: B,
    pub(crate) bag: G,
    pub(crate) kind: PhantomData<K>,
    ghost least: { 2 ≤ copies },
    ghost most: { copies ≤ 8 },
}
