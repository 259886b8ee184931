ghost use Rattle.std.specs.Prelude.{◌≡◌, Some};
ghost use Rattle.report.specs.Reports.{shown_gained, found_of, finding_of};

use crate::says::Says;
use entries::Content;
use grounds::Ground;
use names::Stamp;
use std::fmt;

// What an accepted line got besides. The first four are those of `service::Got`, written out so that a report stands on no
// ring.
#[derive(Clone, Copy, Debug, PartialEq, Eq)]
pub enum Gained {
    Nothing,
    // a sweep's part goes on
    More,
    // a sweep is collected or finished
    Done,
    // the stamp of a closed sweep
    Stamp(Stamp),
    // what a lookup answered
    Content(Content),
}

// `-`, `more`, `done`, `s5122`, or a content as a line says it.
impl fmt::Display for Gained {
    ghost output = { λ x. Some (shown_gained x) };

    fn fmt<W: fmt::Write>(&self, f: &mut fmt::Formatter<W>) -> fmt::Result {
        match *self {
            Gained::Nothing => f.write_str("-"),
            Gained::More => f.write_str("more"),
            Gained::Done => f.write_str("done"),
            Gained::Stamp(stamp) => write!(f, "s{stamp}"),
            Gained::Content(content) => {
                let says = Says(content);
                write!(f, "{says}")
            }
        }
    }
}

// What a line of a replay came to: what it got or the ground of its refusal, and the steps of a lookup or else 0.
#[derive(Clone, Copy, Debug, PartialEq, Eq)]
pub struct Outcome {
    pub answer: Result<Gained, Ground>,
    pub steps: u32,
}

// What a line of a replay came to, as the report has it: its ground or 0, the steps of a lookup or else 0, and what it got.
// The code is a number, since a report prints whatever code it is given, beside whatever was got.
#[derive(Clone, Copy, Debug, PartialEq, Eq)]
pub struct Finding {
    pub code: u8,
    pub steps: u32,
    pub gained: Gained,
}

// The code of a refusal is its ground's number, and a refused line got nothing.
impl From<Outcome> for Finding {
    ghost from_gives = { λ outcome finding. finding ≡ finding_of (found_of outcome) };

    fn from(outcome: Outcome) -> Finding {
        let Outcome { answer, steps } = outcome;
        Self {
            code: answer.err().map_or(0, Ground::number),
            steps,
            gained: answer.unwrap_or(Gained::Nothing),
        }
    }
}
