// The tour: a real task carried through, with a note for each step of what was done and what is now held.
#![tactic(auto)]

mod bakeries;
mod names_read;
mod noted;
mod notes;
mod stores;

fn main(rt: HostRuntime) -> anyhow::Result<()> {
    stores::through_a_table(&rt)?;
    stores::through_a_log(&rt)?;
    names_read::by_names(&rt)?;
    bakeries::swept(&rt)?;
    Ok(())
}
