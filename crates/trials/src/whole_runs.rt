// Whole runs, by the call whose contract carries what is promised of them. A contract cannot rule out that memory is
// wanting, so it is tried here that a run is made.
use crate::asking::Came;
use crate::making::{RECIPES, number_at, rye};
use entries::Recipe;
use folding_log::{Log, LogSlot};
use letters::{Bag, Letter};
use names::Label;
use runs::{Ran, run};
use service::{Call, RecipeCall};
use std::alloc::AllocGlobal;
use std::process::Abort;
use std::test::*;
use store::{Bank, NoMore};
use table::{Table, TableSlot};
use tray::Tray;

// A call of a run, and what is due of it.
type Step = (RecipeCall, Came);

// A call that every ring has, and what is due of it.
fn step(call: Call<Recipe>, due: Came) -> Step {
    (call.into(), due)
}

// What a run left: an answer due for each call, and rye at every copy, in one step.
fn is_as_due<B: Bank<Recipe>, G: Bag<Letter<Recipe>>>(
    rt: &impl Abort,
    ran: &Ran<B, G>,
    steps: &[Step],
) {
    assert_eq!(rt; ran.answers.len(), steps.len());
    'steps: for (answer, step) in ran.answers.iter().zip(steps) {
        assert_eq!(rt; Came::from(*answer), step.1);
    }
    'copies: for copy in 0..3 {
        let came = ran.service.lookup(copy, RECIPES, &[Label::or_none(b"rye")]);
        assert_eq!(rt; Came::from(came), Came::Number(640, 1), "copy {copy}");
    }
}

// Makes the calls of the steps on a ring over the stores and the bag.
fn is_made<B: Bank<Recipe> + Drop, G: Bag<Letter<Recipe>> + Drop>(
    rt: &(impl Abort + AllocGlobal),
    stores: B,
    bag: G,
    steps: &[Step],
) -> Result<(), Fail> {
    let mut calls = Vec::new(rt.alloc());
    'steps: for (call, _) in steps {
        calls.push(*call)?;
    }
    let ran = run(rt.alloc(), stores, bag, &calls).map_err(|_| Fail::new(format_args!(
        "the run was not made"
    )))?;
    is_as_due(rt, &ran, steps);
    Ok(())
}

// The ring is opened over two tables, a log and a bag, each with room for what comes.
#[test]
fn a_run_is_made_and_answers_each_call(rt: HostRuntime) -> Result<(), Fail> {
    // here, since what is lent may not outlive what holds it
    let mut first = [TableSlot::blank(); 4];
    let mut second = [TableSlot::blank(); 4];
    let mut third = [LogSlot::blank(); 8];
    let mut letters = [Letter::blank(); 4];
    let stores = (
        Table::new(&mut first),
        (Table::new(&mut second), (Log::new(&mut third), NoMore)),
    );
    is_made(
        &rt,
        stores,
        Tray::new(&mut letters),
        &[
            step(Call::Post(0, rye(), number_at(1280, 640)), Came::Accepted),
            step(Call::Mail(0, 1, 0), Came::Accepted),
            step(Call::Mail(0, 2, 0), Came::Accepted),
            step(Call::Mail(1, 1, 0), Came::Refused(7)),
            step(Call::Hand(0), Came::Accepted),
            step(Call::Hand(1), Came::Accepted),
            step(Call::Begin(0, 9), Came::Accepted),
            step(Call::Abandon(0), Came::Accepted),
            step(Call::Close(0), Came::Refused(2)),
            (
                RecipeCall::Grow(0, 2304, 9, Label::or_none(b"north"), RECIPES),
                Came::Accepted,
            ),
        ],
    )
}
