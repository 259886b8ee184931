// A store, and where notes of it are printed.
use crate::notes;
use entries::Recipe;
use listing::{Listed, list};
use names::{Label, Path};
use reading::lookup;
use std::io;
use store::Store;

#[derive(Drop)]
pub(crate) struct Noted<'a, R, S> {
    pub(crate) rt: &'a R,
    pub(crate) store: S,
}

impl<'a, R: Print, S: Store<Recipe>> Noted<'a, R, S> {
    // Joins what was said, with a note of it.
    pub(crate) fn write(&mut self, what: &str, path: Path, entry: Recipe) -> io::Result<()> {
        let answer = self.store.join(path, entry);
        scenes::done(self.rt, what, answer)
    }

    // Notes what is held.
    pub(crate) fn held(&self) -> io::Result<()> {
        notes::held(self.rt, &self.store)
    }

    // Reads a name from a directory, with a note of it.
    pub(crate) fn read(&self, what: &str, start: u32, name: &[Label]) -> io::Result<()> {
        scenes::read(self.rt, what, lookup(&self.store, start, name))
    }

    // Lists a directory into memory for so many, with a note of it.
    pub(crate) fn list(&self, what: &str, directory: u32, memory: &mut [Listed]) -> io::Result<()> {
        let answer = list(&self.store, directory, memory);
        notes::listed(self.rt, what, answer, memory)
    }
}
