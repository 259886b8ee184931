// A ring of copies, its letters and its sweeps (docs/RULES.md, "The ring" to "Sweeps").
// Each call's contract is one equation: its answer and the ring after it are the plain machine's.
#![tactic(auto)]

mod awaited;
mod begin;
mod checks;
mod collecting;
mod hand;
mod letters_out;
mod mail;
mod open;
mod opening;
mod post;
mod press;
mod recipes;
mod ring;
mod spreading;
mod sweep;
mod views;

pub use opening::{NotOpened, Opening};
pub use press::{Pressable, Pressed};
pub use ring::Ring;
pub use sweep::{Collected, Collecting, Finished, Refused, Round, Spreading};
