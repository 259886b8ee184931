// A ring in service: the ring, and the sweeps that are under way on it, reached by calls as data.
#![tactic(auto)]

mod call;
mod held;
mod perform;
mod recipe_call;
mod recipes;
mod service;
mod sweep_calls;
mod views;

pub use call::{Call, Got, Trouble};
pub use held::{Held, Kept};
pub use recipe_call::RecipeCall;
pub use service::Service;
