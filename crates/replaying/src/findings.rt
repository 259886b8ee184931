ghost use Rattle.std.specs.Prelude.{◌≡◌};
ghost use Rattle.grounds.specs.Grounds.{ground_number};
ghost use Rattle.reading.specs.Lookup.{reading_of};
ghost use Rattle.service.specs.Calls.{of_got, by_got};
ghost use Rattle.report.specs.Reports.{found_of};
ghost use Rattle.replaying.specs.Replays.{refused, gained_of, of_answer, of_reading};

use grounds::Ground;
use reading::{Answer, Refusal};
use report::{Gained, Outcome};
use service::Got;

// The types on both sides of these conversions are other crates', so that none of them is an impl of `From`; what is refused
// is said in the machine's words, which a report does not know.

// What a line comes to that is refused on a ground, without steps.
pub(crate) fn refused(ground: Ground) -> Outcome
    ensures { found_of result ≡ refused (ground_number ground) }
{
    Outcome {
        answer: Err(ground),
        steps: 0,
    }
}

// What a call got, as the report has it.
fn gained(got: Got) -> Gained
    ensures { result ≡ gained_of (of_got got) }
{
    match got {
        Got::Nothing => Gained::Nothing,
        Got::More => Gained::More,
        Got::Done => Gained::Done,
        Got::Stamp(stamp) => Gained::Stamp(stamp),
    }
}

// What a call comes to, by its answer.
pub(crate) fn of_answer(answer: Result<Got, Ground>) -> Outcome
    ensures { found_of result ≡ of_answer (by_got answer) }
{
    Outcome {
        answer: answer.map(gained),
        steps: 0,
    }
}

// What a lookup comes to, by its answer.
pub(crate) fn of_reading(answer: Result<Answer, Refusal>) -> Outcome
    ensures { found_of result ≡ of_reading (reading_of answer) }
{
    match answer {
        Ok(answer) => Outcome {
            answer: Ok(Gained::Content(answer.content)),
            steps: answer.steps,
        },
        Err(refusal) => Outcome {
            answer: Err(refusal.ground),
            steps: refusal.steps,
        },
    }
}
