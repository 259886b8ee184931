// How a note of a listing, a call, a letter or a store is printed.
use entries::Recipe;
use grounds::Ground;
use letters::{Letter, Tag};
use listing::Listed;
use scenes::Refused;
use service::{Got, Trouble};
use std::io;
use store::Readable;

// What was listed: as many of the memory as the answer says.
pub(crate) fn listed(
    rt: &impl Print,
    what: &str,
    answer: Result<usize, Ground>,
    memory: &[Listed],
) -> io::Result<()> {
    match answer {
        Ok(count) => {
            println!(rt; "{what}: {count} shown")?;
            'shown: for Listed { path, content } in memory.iter().take(count) {
                println!(rt; "      {path}  {content}")?;
            }
            Ok(())
        }
        Err(ground) => println!(rt; "{what}: {}", Refused(ground)),
    }
}

// What a call on a ring did, and how it ended.
pub(crate) fn outcome(
    rt: &impl Print,
    what: &str,
    outcome: Result<Got, Trouble>,
) -> io::Result<()> {
    match outcome {
        Ok(Got::Nothing) => println!(rt; "- {what}: accepted"),
        Ok(Got::More) => println!(rt; "- {what}: accepted, and more is to come"),
        Ok(Got::Done) => println!(rt; "- {what}: accepted, and all is done"),
        Ok(Got::Stamp(stamp)) => println!(rt; "- {what}: accepted, its stamp is {stamp}"),
        Err(Trouble::Refused(ground)) => println!(rt; "- {what}: {}", Refused(ground)),
        Err(Trouble::NoMemory) => println!(rt; "- {what}: there was no memory for another sweep"),
    }
}

// What a letter of the bag says.
pub(crate) fn letter(rt: &impl Print, letter: Option<Letter<Recipe>>) -> io::Result<()> {
    let Some(letter) = letter else {
        return println!(rt; "    no such letter");
    };
    let Letter {
        tag,
        sender,
        addressee,
        stamp,
        place,
        count,
        path,
        entry,
    } = letter;
    print!(rt; "    letter from bakery {sender} to bakery {addressee}: {tag}")?;
    match tag {
        Tag::Counted => println!(rt; " {count}"),
        Tag::Fetch | Tag::Stored => println!(rt; " of place {place}"),
        Tag::News | Tag::Entry | Tag::Put => println!(rt; ", {path}  {}", entry.content),
        Tag::Raise | Tag::Swept | Tag::Noted => println!(rt; ", stamp {stamp}"),
    }
}

// What a store holds, place by place.
pub(crate) fn held<S: Readable<Recipe>>(rt: &impl Print, store: &S) -> io::Result<()> {
    let count = store.count();
    let places = store.places();
    println!(rt; "    held, {count} of {places} places:")?;
    'places: for place in 0..count {
        let path = store.path_at(place);
        let Recipe { stamp, content } = store.entry_at(place);
        println!(rt; "      {place}  {path}  {content}  (stamp {stamp})")?;
    }
    Ok(())
}
