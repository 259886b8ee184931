ghost use Rattle.std.specs.Prelude.{◌≡◌, slice_index_or};
ghost use Rattle.store.specs.Meaning.{no_store};
ghost use Rattle.store.specs.Banks.{sound_at};

use crate::bank::Bank;
use crate::store::Readable;
use entries::Joinable;
use names::Path;
use std::marker::PhantomData;

// One store of a bank, to be read.
#[derive(Drop)]
pub struct OneStore<'a, K, B> {
    bank: &'a B,
    number: usize,
    kind: PhantomData<K>,
}

impl<'a, K: Joinable, B: Bank<K>> OneStore<'a, K, B> {
    // The store of that number; one without places for a number past the end.
    pub fn of(bank: &'a B, number: usize) -> OneStore<'a, K, B>
        ensures { (result.bank.now ≡ bank.now) × (result.number ≡ number) }
    {
        OneStore {
            bank,
            number,
            kind: PhantomData,
        }
    }
}

impl<'a, K: Joinable, B: Bank<K>> Readable<K> for OneStore<'a, K, B> {
    ghost meaning = { λ s. slice_index_or (B.Bank.meanings s.bank.now) s.number no_store };

    ghost sound = { λ s. sound_at (B.Bank.meanings s.bank.now) (B.Bank.sound s.bank.now) s.number };

    fn count(&self) -> usize {
        self.bank.count(self.number)
    }

    fn places(&self) -> usize {
        self.bank.places(self.number)
    }

    fn find(&self, path: &Path) -> Option<usize> {
        self.bank.find(self.number, path)
    }

    fn path_at(&self, place: usize) -> Path {
        self.bank.path_at(self.number, place)
    }

    fn entry_at(&self, place: usize) -> K {
        self.bank.entry_at(self.number, place)
    }
}
