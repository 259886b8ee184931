// The tray: a bag of letters in memory that the caller lends.
#![tactic(auto)]

ghost use Rattle.std.specs.Prelude.{◌≤◌, length};

mod tray_bag;

use lent::Lent;

// The letters in order of sending; there are as many places as slots.
#[derive(Drop)]
pub struct Tray<'a, L> {
    letters: Lent<'a, L>,
    ghost fits: { length letters.items ≤ letters.places },
}
