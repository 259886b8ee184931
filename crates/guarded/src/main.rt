// A tour of guarded writes: an engineer's writes before a grant, under it, and after it was withdrawn, with a note for
// each.
#![tactic(auto)]

mod guarded;

fn main(rt: HostRuntime) -> anyhow::Result<()> {
    guarded::granted(&rt)?;
    Ok(())
}
