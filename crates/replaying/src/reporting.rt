ghost use Rattle.std.specs.Prelude.{◌≡◌, IfOk, string_bytes};
ghost use Rattle.service.specs.Calls.{serving};
ghost use Rattle.replaying.specs.Replays.{lines_of, replayed};

use crate::answering::line_answered;
use crate::input_lines::InputLines;
use entries::Recipe;
use letters::{Bag, Letter};
use report::ReportLine;
use service::Service;
use std::alloc::{AllocError, Global};
use store::Bank;

// Does what the lines of the input ask for, one after another, and reports of each.
pub(crate) fn reported<B: Bank<Recipe>, G: Bag<Letter<Recipe>>>(
    heap: Global,
    service: &mut Service<Recipe, B, G>,
    input: &[u8],
) -> Result<String, AllocError>
    ensures { IfOk result (λ s. (string_bytes s, serving B.Bank G.Bag service.new) ≡ replayed 1 (serving B.Bank G.Bag service.old) (lines_of input.now)) }
{
    let mut report = String::new(heap);
    'lines: for (before, line) in InputLines(input).enumerate() {
        let outcome = line_answered(service, line)?;
        let line = ReportLine {
            number: before + 1,
            finding: outcome.into(),
        };
        write!(report, "{line}")?;
    }
    Ok(report)
}
