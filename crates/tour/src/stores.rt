// The first part: one recipe in the two builds of a store.
use crate::noted::Noted;
use entries::{Content, Recipe};
use folding_log::{Log, LogSlot};
use names::Path;
use scenes::{path, said};
use std::io;
use store::Store;
use table::{Table, TableSlot};

// The directory of the tour's recipes.
const RECIPES: u32 = 1;

// A setting: what is noted of it, and what is joined under which path.
type Setting = (&'static str, Path, Recipe);

// The path of a recipe, or of one of its values.
fn recipe(name: &[u8], value: &[u8]) -> Path {
    path(RECIPES, name, value)
}

// Makes the settings one after another, each with a note of what is then held.
fn set_each<R: Print, S: Store<Recipe>>(
    scene: &mut Noted<R, S>,
    settings: &[Setting],
) -> io::Result<()> {
    'settings: for (what, path, entry) in settings {
        scene.write(what, *path, *entry)?;
        scene.held()?;
    }
    Ok(())
}

// A change of rye/turns, as the engineers of two bakeries make it.
fn change_rye<R: Print, S: Store<Recipe>>(scene: &mut Noted<R, S>) -> io::Result<()> {
    let rye = recipe(b"rye", b"");
    let turns = recipe(b"rye", b"turns");
    set_each(
        scene,
        &[
            (
                "bakery 0 opens the recipe rye",
                rye,
                said(5, 0, Content::Node),
            ),
            (
                "bakery 0 sets rye/turns to 640",
                turns,
                said(6, 0, Content::Number(640)),
            ),
            (
                "bakery 1 sets rye/turns to 655, later",
                turns,
                said(7, 1, Content::Number(655)),
            ),
            (
                "the first setting comes a second time, late",
                turns,
                said(6, 0, Content::Number(640)),
            ),
            (
                "bakery 0 withdraws rye/turns",
                turns,
                said(8, 0, Content::Absent),
            ),
        ],
    )
}

// A new recipe where every place is held, and a last setting of one that is held.
fn fill<R: Print, S: Store<Recipe>>(scene: &mut Noted<R, S>) -> io::Result<()> {
    set_each(
        scene,
        &[
            (
                "bakery 0 opens the recipe wheat",
                recipe(b"wheat", b""),
                said(9, 0, Content::Node),
            ),
            (
                "bakery 1 sets rye/turns to 660",
                recipe(b"rye", b"turns"),
                said(10, 1, Content::Number(660)),
            ),
        ],
    )
}

pub(crate) fn through_a_table(rt: &impl Print) -> io::Result<()> {
    println!(rt; "A table of 2 slots: one slot for each path.")?;
    let mut slots = [TableSlot::blank(); 2];
    let mut scene = Noted {
        rt,
        store: Table::new(&mut slots),
    };
    change_rye(&mut scene)?;
    fill(&mut scene)
}

pub(crate) fn through_a_log(rt: &impl Print) -> io::Result<()> {
    println!(rt;
        "A log of 5 slots: each setting takes the next slot, and half of them, rounded down, are places."
    )?;
    let mut slots = [LogSlot::blank(); 5];
    let mut scene = Noted {
        rt,
        store: Log::new(&mut slots),
    };
    change_rye(&mut scene)?;
    println!(rt;
        "  All 5 slots are used. A refused setting folds nothing; the next accepted one first folds them to one a path."
    )?;
    fill(&mut scene)
}
