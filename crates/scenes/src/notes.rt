// How a note is printed.
use grounds::Ground;
use reading::{Answer, Refusal};
use std::{fmt, io};

// A refusal, as a note has it: the ground's number, and the ground in words.
#[derive(Clone, Copy)]
pub struct Refused(pub Ground);

impl fmt::Display for Refused {
    fn fmt<W: fmt::Write>(&self, f: &mut fmt::Formatter<W>) -> fmt::Result {
        let ground = self.0;
        let number = ground.number();
        write!(f, "refused with ground {number}, {ground}")
    }
}

// What was done, and how it ended.
pub fn done(rt: &impl Print, what: &str, answer: Result<(), Ground>) -> io::Result<()> {
    match answer {
        Ok(()) => println!(rt; "- {what}: accepted"),
        Err(ground) => println!(rt; "- {what}: {}", Refused(ground)),
    }
}

// What was read, and how it ended.
pub fn read(rt: &impl Print, what: &str, answer: Result<Answer, Refusal>) -> io::Result<()> {
    match answer {
        Ok(Answer { content, steps }) => println!(rt; "{what}: {content} (steps: {steps})"),
        Err(Refusal { ground, steps }) => {
            println!(rt; "{what}: {} (steps: {steps})", Refused(ground))
        }
    }
}
