ghost use Rattle.std.specs.Prelude.{◌≡◌};
ghost use Rattle.service.specs.Calls.{of_kept, is_going};

use ring::{Collected, Collecting, Finished, Spreading};

// A sweep under way, in whatever state, or one that has ended. It cannot be let go either.
pub enum Held {
    Collecting(Collecting),
    Collected(Collected),
    Spreading(Spreading),
    Finished(Finished),
    Ended,
}

impl Held {
    // Ends the sweep: it is abandoned, or closed if it was finished.
    pub fn end(self) {
        match self {
            Held::Collecting(sweep) => sweep.abandon(),
            Held::Collected(sweep) => sweep.abandon(),
            Held::Spreading(sweep) => sweep.abandon(),
            Held::Finished(sweep) => {
                let _ = sweep.close();
            }
            Held::Ended => {}
        }
    }
}

// A sweep that a service keeps; where the service is let go, the sweep is ended.
pub struct Kept(Held);

impl Kept {
    // Keeps a sweep.
    pub fn new(sweep: Held) -> Kept
        ensures { result.0 ≡ sweep }
    {
        Kept(sweep)
    }

    // Whether the sweep has not ended.
    pub fn is_going(&self) -> bool
        ensures { result ≡ is_going (of_kept self.now) }
    {
        !matches!(&self.0, Held::Ended)
    }

    // Gives the sweep out again.
    pub fn give(self) -> Held
        ensures { result ≡ self.0 }
    {
        let Kept(sweep) = self;
        sweep
    }
}

impl Drop for Kept {
    fn drop(self) {
        self.give().end();
    }
}
