// The second part: a count read under its name.
use crate::noted::Noted;
use entries::{Content, Recipe};
use listing::Listed;
use names::{Label, Path};
use scenes::{path, said};
use std::io;
use store::Store;
use table::{Table, TableSlot};

// The directory of the north bakery's recipes, and that of the company.
const NORTH: u32 = 1;

const COMPANY: u32 = 2;

// Writes rye with its turns, the company's name for the bakery, and another name for that.
fn set_out<R: Print, S: Store<Recipe>>(scene: &mut Noted<R, S>) -> io::Result<()> {
    scene.write(
        "rye is opened at time 5",
        path(NORTH, b"rye", b""),
        said(5, 0, Content::Node),
    )?;
    scene.write(
        "rye/turns is set to 640 at time 6",
        path(NORTH, b"rye", b"turns"),
        said(6, 0, Content::Number(640)),
    )?;
    scene.write(
        "the company calls the bakery north, at time 7",
        path(COMPANY, b"north", b""),
        said(7, 0, Content::Directory(NORTH)),
    )?;
    scene.write(
        "and old-mill is another name for north, at time 7",
        path(COMPANY, b"old-mill", b""),
        said(7, 0, Content::Link(COMPANY, Label::or_none(b"north"))),
    )?;
    scene.write(
        "a slip of the pen: here is another name for here, at time 7",
        path(COMPANY, b"here", b""),
        said(7, 0, Content::Link(COMPANY, Label::or_none(b"here"))),
    )
}

// Reads turns of rye by a name of the company's.
fn read_turns<R: Print, S: Store<Recipe>>(
    scene: &Noted<R, S>,
    what: &str,
    bakery: &[u8],
) -> io::Result<()> {
    scene.read(
        what,
        COMPANY,
        &[
            Label::or_none(bakery),
            Label::or_none(b"rye"),
            Label::or_none(b"turns"),
        ],
    )
}

// Reads turns of rye by the name that leads over the company's directory.
fn read_from_north<R: Print, S: Store<Recipe>>(scene: &Noted<R, S>) -> io::Result<()> {
    read_turns(scene, "- north/rye/turns, at the company", b"north")
}

// Reads along a directory, along a link, and along a link that leads nowhere.
fn read_all<R: Print, S: Store<Recipe>>(scene: &Noted<R, S>) -> io::Result<()> {
    scene.read(
        "- rye/turns, at the bakery",
        NORTH,
        &[Label::or_none(b"rye"), Label::or_none(b"turns")],
    )?;
    read_from_north(scene)?;
    read_turns(scene, "- old-mill/rye/turns, at the company", b"old-mill")?;
    read_turns(scene, "- here/rye/turns, at the company", b"here")?;
    scene.read("- a name of no labels", NORTH, &[])
}

// Lists the bakery's recipes.
fn list_north<R: Print, S: Store<Recipe>>(
    scene: &Noted<R, S>,
    memory: &mut [Listed],
) -> io::Result<()> {
    scene.list("- the bakery's recipes", NORTH, memory)
}

pub(crate) fn by_names(rt: &impl Print) -> io::Result<()> {
    println!(rt; "A table of 8 slots, read by names.")?;
    let mut slots = [TableSlot::blank(); 8];
    let mut scene = Noted {
        rt,
        store: Table::new(&mut slots),
    };
    set_out(&mut scene)?;
    read_all(&scene)?;
    let nothing = Listed {
        path: Path::NONE,
        content: Content::Absent,
    };
    let mut memory = [nothing; 4];
    list_north(&scene, &mut memory)?;
    scene.write(
        "rye is opened anew at time 8, and what was said below it before is hidden",
        path(NORTH, b"rye", b""),
        said(8, 0, Content::Node),
    )?;
    read_from_north(&scene)?;
    list_north(&scene, &mut memory)?;
    scene.write(
        "rye/turns is set to 650 at time 9, and shown again",
        path(NORTH, b"rye", b"turns"),
        said(9, 0, Content::Number(650)),
    )?;
    read_from_north(&scene)?;
    list_north(&scene, &mut memory)?;
    let mut short = [nothing; 1];
    scene.list(
        "- the bakery's recipes, into memory for one",
        NORTH,
        &mut short,
    )
}
