ghost use Rattle.std.specs.Prelude.{◌≡◌, string_bytes, MatchResult};
ghost use Rattle.service.specs.declared.call.Trouble.TheVariants.{NoMemory};
ghost use Rattle.replaying.specs.Replays.{report_of};
ghost use Rattle.replaying.specs.Covered.{Covered};

use crate::findings::refused;
use crate::opening::replayed_over;
use folding_log::{Log, LogSlot};
use grounds::Ground;
use letters::Letter;
use report::ReportLine;
use service::Trouble;
use std::alloc::Global;
use store::NoMore;
use table::{Table, TableSlot};
use tray::Tray;

// The bytes that an input may have.
pub const LIMIT: usize = 60_000;

// The report of an input, whatever its bytes: of each line, what it came to on a ring of two tables of 64 places and a log of
// 128 slots, with a bag of 64; of too long an input, one line. There is one, unless memory runs out.
pub fn replay(heap: Global, input: &[u8]) -> Result<String, Trouble>
    ensures report { MatchResult result (λ s. string_bytes s ≡ report_of input.now) (λ e. e ≡ NoMemory) }
    ensures covered { Covered input.now }
{
    if input.len() > LIMIT {
        let line = ReportLine {
            number: 0,
            finding: refused(Ground::BadLine).into(),
        };
        return Ok(format!(in heap; "{line}")?);
    }
    // the memory stands here, as it does wherever a ring is opened: what is lent may not outlive what holds it
    let mut first = [TableSlot::blank(); 64];
    let mut second = [TableSlot::blank(); 64];
    let mut third = [LogSlot::blank(); 128];
    let mut letters = [Letter::blank(); 64];
    let first = Table::new(&mut first);
    let second = Table::new(&mut second);
    let third = Log::new(&mut third);
    let stores = (first, (second, (third, NoMore)));
    replayed_over(heap, stores, Tray::new(&mut letters), input)
}
