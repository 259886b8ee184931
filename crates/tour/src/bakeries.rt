// The third part: three bakeries carry a change through, lose a letter, get another twice, and are swept.
use crate::notes;
use entries::{Content, Recipe};
use folding_log::{Log, LogSlot};
use letters::{Bag, Letter};
use names::{Label, Path, stamp_at};
use ring::Opening;
use scenes::{path, said};
use service::{Call, Got, RecipeCall, Service};
use std::alloc::AllocGlobal;
use std::io;
use store::{Bank, NoMore};
use table::{Table, TableSlot};
use tray::Tray;

// The directory of the recipes, and the one that is grown above it.
const RECIPES: u32 = 1;

const COMPANY: u32 = 2;

// The path rye/turns in the recipes' directory.
fn turns() -> Path {
    path(RECIPES, b"rye", b"turns")
}

// The bakeries' ring in service, and where notes of it are printed.
#[derive(Drop)]
struct Bakeries<'a, R, B, G> {
    rt: &'a R,
    service: Service<Recipe, B, G>,
}

impl<'a, R: Print, B: Bank<Recipe>, G: Bag<Letter<Recipe>>> Bakeries<'a, R, B, G> {
    // Makes a call, with a note of it; whether it said that its part of a sweep is done.
    fn call(&mut self, what: &str, call: RecipeCall) -> io::Result<bool> {
        let outcome = self.service.perform_recipe(call);
        notes::outcome(self.rt, what, outcome)?;
        Ok(matches!(outcome, Ok(Got::Done)))
    }

    // Posts what a copy says of a path.
    fn post(&mut self, what: &str, copy: usize, path: Path, entry: Recipe) -> io::Result<()> {
        self.call(what, Call::Post(copy, path, entry).into())?;
        Ok(())
    }

    // Makes a call on the sweep, with a note of it.
    fn sweep_call(&mut self, what: &str, call: Call<Recipe>) -> io::Result<()> {
        self.call(what, call.into())?;
        Ok(())
    }

    // Notes the letter of that number.
    fn letter(&self, number: usize) -> io::Result<()> {
        notes::letter(self.rt, self.service.letter(number))
    }

    // Mails what lies at a place of a copy to another, with notes of the call and of the letter.
    fn mail(&mut self, what: &str, from: usize, to: usize, place: usize) -> io::Result<()> {
        self.call(what, Call::Mail(from, to, place).into())?;
        self.letter(0)
    }

    // Hands the first letter over.
    fn hand(&mut self, what: &str) -> io::Result<()> {
        self.call(what, Call::Hand(0).into())?;
        Ok(())
    }

    // Takes the first letter out of the bag, with no note.
    fn tidy(&mut self) {
        let _ = self.service.perform_recipe(Call::Lose(0).into());
    }

    // Mails what lies at a place of bakery 0 to another, and hands the letter over.
    fn carry(&mut self, to: usize, place: usize) -> io::Result<()> {
        self.mail("bakery 0 mails it", 0, to, place)?;
        self.hand("it is handed over")?;
        self.tidy();
        Ok(())
    }

    // Reads turns of rye at each bakery, in the recipes' directory.
    fn read_turns(&self) -> io::Result<()> {
        let name = [Label::or_none(b"rye"), Label::or_none(b"turns")];
        let rt = self.rt;
        'copies: for copy in 0..3 {
            let head = self.service.head(copy);
            println!(rt;
                "    bakery {copy}, floor {} and sweep stamp {}:",
                head.floor, head.sweep
            )?;
            scenes::read(
                rt,
                "      rye/turns",
                self.service.lookup(copy, RECIPES, &name),
            )?;
        }
        Ok(())
    }

    // Reads turns of rye at each bakery, by the name below the new root.
    fn read_from_the_new_root(&self) -> io::Result<()> {
        let name = [
            Label::or_none(b"north"),
            Label::or_none(b"rye"),
            Label::or_none(b"turns"),
        ];
        let rt = self.rt;
        'copies: for copy in 0..3 {
            println!(rt; "    bakery {copy}:")?;
            scenes::read(
                rt,
                "      north/rye/turns",
                self.service.lookup(copy, COMPANY, &name),
            )?;
        }
        Ok(())
    }

    // Opens rye and sets its turns at bakery 0, and brings both to the others.
    fn set_out(&mut self) -> io::Result<()> {
        self.post(
            "bakery 0 opens the recipe rye at time 5",
            0,
            path(RECIPES, b"rye", b""),
            said(5, 0, Content::Node),
        )?;
        self.post(
            "bakery 0 sets rye/turns to 640 at time 6",
            0,
            turns(),
            said(6, 0, Content::Number(640)),
        )?;
        'copies: for copy in 1..3 {
            'places: for place in 0..2 {
                self.carry(copy, place)?;
            }
        }
        self.read_turns()
    }

    // Changes turns of rye at two bakeries. One letter is lost; one comes twice, the second time late.
    fn change_rye(&mut self) -> io::Result<()> {
        self.post(
            "bakery 1 sets rye/turns to 655 at time 10, with a stamp of bakery 0",
            1,
            turns(),
            said(10, 0, Content::Number(655)),
        )?;
        self.post(
            "bakery 1 sets rye/turns to 655 at time 10",
            1,
            turns(),
            said(10, 1, Content::Number(655)),
        )?;
        self.mail("bakery 1 mails it", 1, 0, 1)?;
        self.call("the letter is lost", Call::Lose(0).into())?;
        self.mail("bakery 1 mails it", 1, 2, 1)?;
        self.hand("it is handed over")?;
        self.post(
            "bakery 2 sets rye/turns to 660 at time 11",
            2,
            turns(),
            said(11, 2, Content::Number(660)),
        )?;
        self.hand("the same letter is handed over again, late")?;
        self.tidy();
        let rt = self.rt;
        println!(rt; "  Each bakery has another count now, and none knows it:")?;
        self.read_turns()
    }

    // One turn of a sweep: its request is sent and handed over, and the reply is read. Whether its part is done.
    fn turn(&mut self, reading: Call<Recipe>) -> io::Result<bool> {
        self.sweep_call("the sweep is pressed", Call::Press(0))?;
        self.letter(0)?;
        self.hand("it is handed over")?;
        self.letter(1)?;
        let done = self.call("the sweep reads the reply", reading.into())?;
        self.tidy();
        self.tidy();
        Ok(done)
    }

    // Turns of the sweep until its part is done.
    fn turns(&mut self, reading: Call<Recipe>) -> io::Result<()> {
        'turns: for _turn in 0..16 {
            if self.turn(reading)? {
                break;
            }
        }
        Ok(())
    }

    // A sweep from bakery 0, from beginning to end.
    fn sweep(&mut self) -> io::Result<()> {
        self.sweep_call(
            "a sweep is begun at bakery 0 at time 20",
            Call::Begin(0, 20),
        )?;
        self.sweep_call("it is spread before it has collected", Call::Spread(0))?;
        self.turns(Call::Collect(0, 1))?;
        self.post(
            "bakery 1 sets rye/turns to 600 with a stamp of time 19, below its floor",
            1,
            turns(),
            said(19, 1, Content::Number(600)),
        )?;
        self.sweep_call("the sweep is spread", Call::Spread(0))?;
        self.turns(Call::Confirm(0, 1))?;
        self.sweep_call("the sweep is closed", Call::Close(0))?;
        let rt = self.rt;
        println!(rt; "  All three answer alike:")?;
        self.read_turns()
    }

    // Grows a new root above the recipes, and brings it to the others.
    fn grow(&mut self) -> io::Result<()> {
        let north = Label::or_none(b"north");
        self.call(
            "bakery 0 grows directory 1, which is used, above directory 2",
            RecipeCall::Grow(0, stamp_at(30, 0), RECIPES, north, COMPANY),
        )?;
        self.call(
            "bakery 0 grows directory 2 above directory 1, as north, at time 30",
            RecipeCall::Grow(0, stamp_at(30, 0), COMPANY, north, RECIPES),
        )?;
        self.read_from_the_new_root()?;
        'copies: for copy in 1..3 {
            self.carry(copy, 2)?;
        }
        let rt = self.rt;
        println!(rt;
            "  The old names answer below the new root, one step later, and as before from where they were:"
        )?;
        self.read_from_the_new_root()?;
        self.read_turns()
    }

    // The whole task.
    fn carry_through(&mut self) -> io::Result<()> {
        self.set_out()?;
        self.change_rye()?;
        self.sweep()?;
        self.grow()
    }
}

// The whole task, on a ring that is opened over the stores and the bag.
fn opened<B: Bank<Recipe> + Drop, G: Bag<Letter<Recipe>> + Drop>(
    rt: &(impl Print + AllocGlobal),
    stores: B,
    bag: G,
) -> io::Result<()> {
    match Opening::check(stores, bag) {
        Ok(opening) => {
            let service = Service::start(rt.alloc(), opening);
            let mut bakeries = Bakeries { rt, service };
            bakeries.carry_through()
        }
        Err(refused) => scenes::done(rt, "the ring is opened", Err(refused.ground)),
    }
}

// Three bakeries, two with a table and one with a log.
pub(crate) fn swept(rt: &(impl Print + AllocGlobal)) -> io::Result<()> {
    println!(rt;
        "Three bakeries: two tables of 8 slots, a log of 16 slots, and a bag for 16 letters."
    )?;
    // here, since what is lent may not outlive what holds it
    let mut first = [TableSlot::blank(); 8];
    let mut second = [TableSlot::blank(); 8];
    let mut third = [LogSlot::blank(); 16];
    let mut letters = [Letter::blank(); 16];
    let stores = (
        Table::new(&mut first),
        (Table::new(&mut second), (Log::new(&mut third), NoMore)),
    );
    opened(rt, stores, Tray::new(&mut letters))
}
