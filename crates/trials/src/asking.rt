// What a trial asks of a ring in service, what comes of it, and how a table of both is gone through.
use crate::making::RECIPES;
use entries::{Content, Recipe};
use folding_log::{Log, LogSlot};
use grounds::Ground;
use letters::{Bag, Letter, Tag};
use names::{Label, Stamp};
use reading::{Answer, Refusal};
use ring::Opening;
use service::{Call, Got, Service, Trouble};
use std::alloc::AllocGlobal;
use std::process::Abort;
use std::test::*;
use store::{Bank, NoMore};
use table::{Table, TableSlot};
use tray::Tray;

// What is asked.
#[derive(Clone, Copy)]
pub enum Ask {
    Call(Call<Recipe>),
    // the letter of that number
    Letter(usize),
    // the lookup of one label at a copy
    Name(usize, Label),
    // the lookup of rye/turns at a copy
    Turns(usize),
}

// What comes of it. A ground goes by its number and not by its name: the number is what the rules fix.
#[derive(Clone, Copy, PartialEq, Debug)]
pub enum Came {
    Accepted,
    More,
    Done,
    Stamped(Stamp),
    Refused(u8),
    NoMemory,
    // tag, addressee, count
    Sent(Tag, usize, usize),
    NoLetter,
    // number, steps
    Number(u32, u32),
    OtherContent,
    // ground, steps
    Unread(u8, u32),
}

// A line of a trial: what is asked, and what is due.
pub type Row = (Ask, Came);

// A call, and what is due of it.
pub(crate) fn call(call: Call<Recipe>, due: Came) -> Row {
    (Ask::Call(call), due)
}

// A call that has to be accepted.
pub(crate) fn accepted(call: Call<Recipe>) -> Row {
    (Ask::Call(call), Came::Accepted)
}

// A call that has to be refused with the ground of a number.
pub(crate) fn refused(call: Call<Recipe>, ground: u8) -> Row {
    (Ask::Call(call), Came::Refused(ground))
}

// A letter that has to have a tag, an addressee and a count.
pub(crate) fn letter(number: usize, tag: Tag, addressee: usize, count: usize) -> Row {
    (Ask::Letter(number), Came::Sent(tag, addressee, count))
}

// A lookup of rye at a copy, and what is due of it.
pub(crate) fn rye_at(copy: usize, due: Came) -> Row {
    (Ask::Name(copy, Label::or_none(b"rye")), due)
}

// What an accepted call came to.
impl From<Got> for Came {
    fn from(got: Got) -> Came {
        match got {
            Got::Nothing => Came::Accepted,
            Got::More => Came::More,
            Got::Done => Came::Done,
            Got::Stamp(stamp) => Came::Stamped(stamp),
        }
    }
}

// What a refused call came to.
impl From<Ground> for Came {
    fn from(ground: Ground) -> Came {
        Came::Refused(ground.number())
    }
}

// What an answered call came to.
impl From<Result<Got, Ground>> for Came {
    fn from(answer: Result<Got, Ground>) -> Came {
        answer.map_or_else(Came::from, Came::from)
    }
}

// What came of a call.
impl From<Result<Got, Trouble>> for Came {
    fn from(outcome: Result<Got, Trouble>) -> Came {
        match outcome {
            Ok(got) => got.into(),
            Err(Trouble::Refused(ground)) => ground.into(),
            Err(Trouble::NoMemory) => Came::NoMemory,
        }
    }
}

// What was seen of a letter.
impl From<Option<Letter<Recipe>>> for Came {
    fn from(letter: Option<Letter<Recipe>>) -> Came {
        match letter {
            Some(letter) => Came::Sent(letter.tag, letter.addressee, letter.count),
            None => Came::NoLetter,
        }
    }
}

// What a lookup answered.
impl From<Result<Answer, Refusal>> for Came {
    fn from(answer: Result<Answer, Refusal>) -> Came {
        match answer {
            Ok(
                Answer {
                    content: Content::Number(number),
                    steps,
                },
            ) => Came::Number(number, steps),
            Ok(_) => Came::OtherContent,
            Err(Refusal { ground, steps }) => Came::Unread(ground.number(), steps),
        }
    }
}

// What comes of what is asked.
fn comes<B: Bank<Recipe>, G: Bag<Letter<Recipe>>>(
    service: &mut Service<Recipe, B, G>,
    asked: Ask,
) -> Came {
    match asked {
        Ask::Call(call) => service.perform(call).into(),
        Ask::Letter(number) => service.letter(number).into(),
        Ask::Name(copy, name) => service.lookup(copy, RECIPES, &[name]).into(),
        Ask::Turns(copy) => service
            .lookup(
                copy,
                RECIPES,
                &[Label::or_none(b"rye"), Label::or_none(b"turns")],
            )
            .into(),
    }
}

// Goes through a table on a ring that is opened over the stores and the bag.
fn go_through<B: Bank<Recipe> + Drop, G: Bag<Letter<Recipe>> + Drop>(
    rt: &(impl Abort + AllocGlobal),
    stores: B,
    bag: G,
    rows: &[Row],
) -> Result<(), Fail> {
    match Opening::check(stores, bag) {
        Ok(opening) => {
            let mut service = Service::start(rt.alloc(), opening);
            'rows: for (number, (asked, due)) in rows.iter().enumerate() {
                assert_eq!(rt; comes(&mut service, *asked), *due, "row {number}");
            }
            Ok(())
        }
        Err(refused) => {
            let number = refused.ground.number();
            Err(Fail::new(format_args!("the ring is refused with {number}")))
        }
    }
}

// Goes through a table on a ring just opened of two tables and a log, with a place in the bag for each of the letters.
pub(crate) fn on_a_ring(
    rt: &(impl Abort + AllocGlobal),
    letters: &mut [Letter<Recipe>],
    rows: &[Row],
) -> Result<(), Fail> {
    // here, since what is lent may not outlive what holds it
    let mut first = [TableSlot::blank(); 16];
    let mut second = [TableSlot::blank(); 16];
    let mut third = [LogSlot::blank(); 32];
    let stores = (
        Table::new(&mut first),
        (Table::new(&mut second), (Log::new(&mut third), NoMore)),
    );
    go_through(rt, stores, Tray::new(letters), rows)
}
