ghost use Rattle.std.specs.Prelude.{Some};
ghost use Rattle.report.specs.Reports.{shown_says};

use entries::Content;
use std::fmt;

// A content in the letters that a line says it with.
#[derive(Clone, Copy)]
pub struct Says(pub Content);

// `a`, `t`, `n640`, `d7` or `l7:rye`.
impl fmt::Display for Says {
    ghost output = { λ x. Some (shown_says x.0) };

    fn fmt<W: fmt::Write>(&self, f: &mut fmt::Formatter<W>) -> fmt::Result {
        match self.0 {
            Content::Absent => f.write_str("a"),
            Content::Node => f.write_str("t"),
            Content::Number(number) => write!(f, "n{number}"),
            Content::Directory(directory) => write!(f, "d{directory}"),
            Content::Link(directory, label) => write!(f, "l{directory}:{label}"),
        }
    }
}
