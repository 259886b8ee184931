// An engineer's writes before a grant, under it, and after it was withdrawn.
use access::{access_path, write};
use entries::{Content, Dated, Recipe, Rights};
use letters::{Bag, Letter};
use names::{Label, stamp_at};
use ring::{Opening, Ring};
use scenes::{done, path, read, said};
use std::io;
use store::{Bank, NoMore};
use table::{Table, TableSlot};
use tray::Tray;

// The directory of the recipes.
const RECIPES: u32 = 1;

// The role of an engineer.
const ENGINEER: usize = 3;

// The bakeries' two rings, and where notes of what is done are printed.
#[derive(Drop)]
struct Bakeries<'a, R, B, G, C, H> {
    rt: &'a R,
    recipes: Ring<Recipe, B, G>,
    rights: Ring<Rights, C, H>,
}

impl<
    'a,
    R: Print,
    B: Bank<Recipe>,
    G: Bag<Letter<Recipe>>,
    C: Bank<Rights>,
    H: Bag<Letter<Rights>>,
> Bakeries<'a, R, B, G, C, H> {
    // The engineer sets rye at bakery 0, with a note of it, and rye is read there.
    fn set_rye(&mut self, what: &str, entry: Recipe) -> io::Result<()> {
        let rye = path(RECIPES, b"rye", b"");
        let answer = write(&mut self.recipes, &self.rights, 0, ENGINEER, rye, entry);
        done(self.rt, what, answer)?;
        let found = self.recipes.lookup(0, RECIPES, &[Label::or_none(b"rye")]);
        read(self.rt, "    rye at bakery 0", found)
    }

    // Posts a word on the engineer's rights in the recipes' directory at bakery 0, with a note of it.
    fn say(&mut self, what: &str, word: Option<Rights>) -> io::Result<()> {
        let Some(word) = word else {
            return Ok(());
        };
        let answer = self.rights.post(0, access_path(RECIPES), word);
        done(self.rt, what, answer)
    }

    // The whole scene.
    fn carry_through(&mut self) -> io::Result<()> {
        self.set_rye(
            "the engineer sets rye to 640 at time 5",
            said(5, 0, Content::Number(640)),
        )?;
        self.say(
            "the engineer's role is granted at time 6",
            Rights::granted(ENGINEER, stamp_at(6, 0)),
        )?;
        self.set_rye(
            "the engineer sets rye to 640 at time 7",
            said(7, 0, Content::Number(640)),
        )?;
        self.say(
            "the grant is withdrawn at time 8",
            Rights::withdrawn(ENGINEER, stamp_at(8, 0)),
        )?;
        self.set_rye(
            "the engineer sets rye to 655 at time 9",
            said(9, 0, Content::Number(655)),
        )
    }
}

// A ring over the stores and the bag, if it can be opened; with a note if it cannot.
fn opened<K: Dated, B: Bank<K> + Drop, G: Bag<Letter<K>> + Drop>(
    rt: &impl Print,
    what: &str,
    stores: B,
    bag: G,
) -> io::Result<Option<Ring<K, B, G>>> {
    match Opening::check(stores, bag) {
        Ok(opening) => Ok(Some(opening.make())),
        Err(refused) => {
            done(rt, what, Err(refused.ground))?;
            Ok(None)
        }
    }
}

// The scene on two rings that are opened over stores and bags.
fn on_two_rings<
    B: Bank<Recipe> + Drop,
    G: Bag<Letter<Recipe>> + Drop,
    C: Bank<Rights> + Drop,
    H: Bag<Letter<Rights>> + Drop,
>(rt: &impl Print, recipes: (B, G), rights: (C, H)) -> io::Result<()> {
    let Some(recipes) = opened(rt, "the ring of recipes is opened", recipes.0, recipes.1)? else {
        return Ok(());
    };
    let Some(rights) = opened(rt, "the ring of rights is opened", rights.0, rights.1)? else {
        return Ok(());
    };
    let mut bakeries = Bakeries {
        rt,
        recipes,
        rights,
    };
    bakeries.carry_through()
}

// Two bakeries with a ring of recipes and a ring of rights.
pub(crate) fn granted(rt: &impl Print) -> io::Result<()> {
    println!(rt;
        "Two bakeries with a ring of recipes and a ring of rights; an engineer's writes at bakery 0."
    )?;
    let mut first = [TableSlot::blank(); 2];
    let mut second = [TableSlot::blank(); 2];
    let mut letters = [Letter::blank(); 2];
    let mut first_rights = [TableSlot::blank(); 2];
    let mut second_rights = [TableSlot::blank(); 2];
    let mut letters_on_rights = [Letter::blank(); 2];
    let recipes = (Table::new(&mut first), (Table::new(&mut second), NoMore));
    let rights = (
        Table::new(&mut first_rights),
        (Table::new(&mut second_rights), NoMore),
    );
    on_two_rings(
        rt,
        (recipes, Tray::new(&mut letters)),
        (rights, Tray::new(&mut letters_on_rights)),
    )
}
