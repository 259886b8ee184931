// The replay: reads calls from standard input, one a line, makes them, and writes a report of each to standard output
// (docs/RULES.md, "Replay"). What it writes of an input is `replaying::replay`'s to say.
#![tactic(auto)]

use replaying::{LIMIT, replay};
use std::alloc::AllocError;
use std::io::Read;

// It reads standard input to its end, or to one byte past the limit: what comes then changes nothing.
fn main(rt: HostRuntime) -> anyhow::Result<()> {
    let mut input = Vec::new(rt.alloc());
    rt.stdin().take(LIMIT as u64 + 1).read_to_end(&mut input)?;
    let report = replay(rt.alloc(), &input).map_err(|_| AllocError)?;
    rt.print(report)?;
    Ok(())
}
