use entries::Recipe;
use grounds::Ground;
use service::{Got, Service};

// What a run left: the ring in service, and the answer of each call.
#[derive(Drop)]
pub struct Ran<B, G> {
    pub service: Service<Recipe, B, G>,
    pub answers: Vec<Result<Got, Ground>>,
}
