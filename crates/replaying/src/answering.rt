ghost use Rattle.std.specs.Prelude.{◌≡◌, IfOk, Some};
ghost use Rattle.service.specs.Calls.{serving};
ghost use Rattle.lines.specs.Asked.{of_request, asked_by};
ghost use Rattle.report.specs.Reports.{found_of};
ghost use Rattle.replaying.specs.Replays.{latest, makes, moved, replied};

use crate::findings::{of_answer, of_reading, refused};
use entries::Recipe;
use grounds::Ground;
use letters::{Bag, Letter};
use lines::{Request, read_line};
use report::Outcome;
use runs::make_call;
use service::{Call, RecipeCall, Service};
use std::alloc::AllocError;
use store::Bank;

// The number of the sweep that was begun last.
fn latest<B: Bank<Recipe>, G: Bag<Letter<Recipe>>>(service: &Service<Recipe, B, G>) -> usize
    ensures { result ≡ latest (serving B.Bank G.Bag service.now).1 }
{
    service.sweeps().saturating_sub(1)
}

// Makes the call, and tells what it comes to.
fn called<B: Bank<Recipe>, G: Bag<Letter<Recipe>>>(
    service: &mut Service<Recipe, B, G>,
    call: RecipeCall,
) -> Result<Outcome, AllocError>
    ensures { IfOk result (λ x. (found_of x, serving B.Bank G.Bag service.new) ≡ moved (serving B.Bank G.Bag service.old) (makes call)) }
{
    Ok(of_answer(make_call(service, call)?))
}

// Begins a sweep, unless one is held.
fn begun<B: Bank<Recipe>, G: Bag<Letter<Recipe>>>(
    service: &mut Service<Recipe, B, G>,
    copy: usize,
    time: u32,
) -> Result<Outcome, AllocError>
    ensures { IfOk result (λ x. (found_of x, serving B.Bank G.Bag service.new) ≡ replied (serving B.Bank G.Bag service.old) (Some (of_request (Request.Begin copy time)))) }
{
    if service.is_going(latest(service)) {
        return Ok(refused(Ground::NoSuchSweep));
    }
    called(service, Call::Begin(copy, time).into())
}

// Does what is asked for, and tells what it comes to.
fn answered<B: Bank<Recipe>, G: Bag<Letter<Recipe>>>(
    service: &mut Service<Recipe, B, G>,
    request: Request,
) -> Result<Outcome, AllocError>
    ensures { IfOk result (λ x. (found_of x, serving B.Bank G.Bag service.new) ≡ replied (serving B.Bank G.Bag service.old) (Some (of_request request))) }
{
    let sweep = latest(service);
    match request {
        Request::Post(copy, path, entry) => called(service, Call::Post(copy, path, entry).into()),
        Request::Grow(copy, stamp, new, label, old) => called(
            service,
            RecipeCall::Grow(copy, stamp, new, label, old),
        ),
        Request::Lookup(copy, start, name) => Ok(of_reading(service.lookup(
            copy,
            start,
            name.labels(),
        ))),
        Request::Mail(from, to, place) => called(service, Call::Mail(from, to, place).into()),
        Request::Hand(letter) => called(service, Call::Hand(letter).into()),
        Request::Lose(letter) => called(service, Call::Lose(letter).into()),
        Request::Collect(letter) => called(service, Call::Collect(sweep, letter).into()),
        Request::Confirm(letter) => called(service, Call::Confirm(sweep, letter).into()),
        Request::Begin(copy, time) => begun(service, copy, time),
        Request::Press => called(service, Call::Press(sweep).into()),
        Request::Spread => called(service, Call::Spread(sweep).into()),
        Request::Close => called(service, Call::Close(sweep).into()),
        Request::Abandon => called(service, Call::Abandon(sweep).into()),
    }
}

// Reads a line, does what it asks for, and tells what it comes to.
pub(crate) fn line_answered<B: Bank<Recipe>, G: Bag<Letter<Recipe>>>(
    service: &mut Service<Recipe, B, G>,
    line: &[u8],
) -> Result<Outcome, AllocError>
    ensures { IfOk result (λ x. (found_of x, serving B.Bank G.Bag service.new) ≡ replied (serving B.Bank G.Bag service.old) (asked_by line.now)) }
{
    match read_line(line) {
        Some(request) => answered(service, request),
        None => Ok(refused(Ground::BadLine)),
    }
}
