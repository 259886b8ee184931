ghost use Rattle.std.specs.Prelude.{◌≡◌, Some};
ghost use Rattle.std.specs.Fmt.{WritesOnOk};
ghost use Rattle.names.specs.declared.path.Path.{Path as Whole};
ghost use Rattle.names.specs.Paths.{sound_path, same_path, order_of, one_label, parent_of, Above, shown_after, shown_path};
ghost use Rattle.std.specs.Cmp.{IsTotalOrder};

use crate::label::Label;
use std::fmt;

// A directory and one to three labels; a label that is not used is 0.
// A value may hold anything in its fields; `is_sound` tells whether it is a path.
#[derive(Clone, Copy, Debug, PartialEq, Eq, PartialOrd, Ord)]
pub struct Path {
    pub directory: u32,
    pub first: Label,
    pub second: Label,
    pub third: Label,
}

impl Path {
    // Directory 0 with no label: what a store gives for a place that it does not hold.
    pub const NONE: Path = Path {
        directory: 0,
        first: Label::NONE,
        second: Label::NONE,
        third: Label::NONE,
    };

    // The path of one label.
    pub fn of_label(directory: u32, label: Label) -> Path
        ensures { result ≡ one_label directory label }
    {
        Path {
            directory,
            first: label,
            ..Path::NONE
        }
    }

    // Whether the labels are labels, and the ones not used stand last.
    pub fn is_sound(&self) -> bool
        ensures { result ≡ sound_path self.now }
    {
        if !self.first.is_sound() {
            false
        } else if self.second.number == 0 {
            self.third.number == 0
        } else if !self.second.is_sound() {
            false
        } else if self.third.number != 0 {
            self.third.is_sound()
        } else {
            true
        }
    }

    // The path without its last label; none for a path of one label.
    // A parent has the directory and the first label of its path, and is sound where the path is.
    pub fn parent(&self) -> Option<Path>
        ensures value { result ≡ parent_of self.now }
        ensures shorter { (q : Whole) → result ≡ Some q → Above q self.now }
    {
        if self.third.number != 0 {
            Some(Path {
                third: Label::NONE,
                ..*self
            })
        } else if self.second.number != 0 {
            Some(Path {
                second: Label::NONE,
                ..*self
            })
        } else {
            None
        }
    }
}

// Paths are equal exactly when their directories and all their labels are, and are totally ordered by directory, then by
// each label as a number.
pub fn paths_are_compared_part_by_part()
    ensures equal { (p q : Whole) → ⟦<Path as PartialEq>⟧.eq p q ≡ same_path p q }
    ensures ordered { (p q : Whole) → ⟦<Path as Ord>⟧.cmp p q ≡ order_of p q }
    ensures partly { (p q : Whole) → ⟦<Path as PartialOrd>⟧.partial_cmp p q ≡ Some (order_of p q) }
    ensures total { IsTotalOrder order_of }
{}

// Writes a slash and the label, or nothing where the label is not used.
fn show_after<W: fmt::Write>(label: Label, f: &mut fmt::Formatter<W>) -> fmt::Result
    ensures { WritesOnOk W.Write.write_str_gives f.old result (shown_after label) f.new }
{
    if label.number == 0 {
        Ok(())
    } else {
        write!(f, "/{label}")
    }
}

// A path is shown as in `1:rye/turns`.
impl fmt::Display for Path {
    ghost output = { λ p. Some (shown_path p) };

    fn fmt<W: fmt::Write>(&self, f: &mut fmt::Formatter<W>) -> fmt::Result {
        let directory = self.directory;
        let first = self.first;
        write!(f, "{directory}:{first}")?;
        show_after(self.second, f)?;
        show_after(self.third, f)
    }
}
