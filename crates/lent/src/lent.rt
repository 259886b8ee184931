ghost use Rattle.std.specs.Prelude.{◌≡◌, [], ◌∷◌, ◌++◌, cond, length, take, nat_lt, Ok, Err, slice_get, slice_set};
ghost use Rattle.std.specs.List.{remove};

use std::marker::Model;

// The items stand in the first slots, in order; the slots after them are free. A `Vec` would own its memory, which here
// stays the caller's, so the count stands beside the slots.
#[derive(Drop)]
pub struct Lent<'a, T> {
    slots: &'a mut [T],
    used: usize,
}

impl<'a, T> Model for Lent<'a, T> {
    ghost use Rattle.std.specs.Prelude.{◌≤◌, length};
    ghost use Rattle.lent.specs.Held.{Held, held_in};

    ghost Value = { Held T };

    ghost view = { λ l. held_in l.used l.slots.now };

    ghost invariant = { λ l. l.used ≤ length l.slots.now };
}

impl<'a, T> Lent<'a, T> {
    // No item yet, whatever the slots held.
    pub fn new(slots: &'a mut [T]) -> Lent<'a, T>
        ensures { result ≡ record { items = []; places = length slots.old } }
    {
        Lent { slots, used: 0 }
    }

    // How many items are held.
    pub fn len(&self) -> usize
        ensures { result ≡ length self.now.items }
    {
        self.as_slice().len()
    }

    // How many items there is room for in all.
    pub fn places(&self) -> usize
        ensures { result ≡ self.now.places }
    {
        self.slots.len()
    }

    // The items, in order.
    pub fn as_slice(&self) -> &[T]
        ensures { result.now ≡ self.now.items }
    {
        &self.slots[..self.used]
    }

    // Takes all items out.
    pub fn clear(&mut self)
        ensures { self.new ≡ record { items = []; places = self.old.places } }
    {
        self.used = 0;
    }

    // Keeps the first `len` items.
    pub fn truncate(&mut self, len: usize)
        ensures { self.new ≡ record { items = take len self.old.items; places = self.old.places } }
    {
        self.used = len.min(self.used);
    }
}

impl<'a, T: Copy> Lent<'a, T> {
    // The item at a place, if there is one.
    pub fn get(&self, at: usize) -> Option<T>
        ensures { result ≡ slice_get self.now.items at }
    {
        self.as_slice().get(at).copied()
    }

    // Puts an item at the end; gives it back where there is no room.
    pub fn push(&mut self, item: T) -> Result<(), T>
        ensures answer { result ≡ cond (nat_lt (length self.old.items) self.old.places) (Ok tt) (Err item) }
        ensures after { self.new ≡ cond (nat_lt (length self.old.items) self.old.places) (record { items = self.old.items ++ item ∷ []; places = self.old.places }) self.old }
    {
        if self.len() == self.places() {
            return Err(item);
        }
        self.slots[self.used] = item;
        self.used += 1;
        Ok(())
    }

    // Writes an item over the one at a place; past the end nothing changes.
    pub fn set(&mut self, at: usize, item: T)
        ensures { self.new ≡ record { items = slice_set self.old.items at item; places = self.old.places } }
    {
        if at < self.used {
            self.slots[at] = item;
        }
    }

    // Takes out the item at a place, if there is one; the later ones move up.
    pub fn remove(&mut self, at: usize) -> Option<T>
        ensures answer { result ≡ slice_get self.old.items at }
        ensures after { self.new ≡ record { items = remove self.old.items at; places = self.old.places } }
    {
        if at >= self.used {
            return None;
        }
        let item = self.slots[at];
        self.slots.copy_within(at + 1..self.used, at);
        self.used -= 1;
        Some(item)
    }
}
