ghost use Rattle.std.specs.Prelude.{◌≤◌};

use grounds::Ground;
use std::marker::PhantomData;

// Stores and a bag that were checked, and that a ring can be made of.
#[derive(Drop)]
pub struct Opening<K, B, G> {
    pub(crate) copies: usize,
    pub(crate) stores: B,
    pub(crate) bag: G,
    pub(crate) kind: PhantomData<K>,
    ghost least: { 2 ≤ copies },
    ghost most: { copies ≤ 8 },
}

// A refused opening gives stores and bag back as they were.
#[derive(Drop)]
pub struct NotOpened<B, G> {
    pub ground: Ground,
    pub stores: B,
    pub bag: G,
}
