// Lines of the replay program: reads a line, and tells what it asks for (docs/RULES.md, "Replay").
#![tactic(auto)]

mod forms;
mod laws;
mod line;
mod name;
mod number;
mod reader;
mod request;
mod says;

pub use laws::{
    a_line_is_read_exactly_when_its_fields_stand_in_order,
    a_number_is_read_exactly_when_it_is_in_decimal,
    labels_are_read_exactly_when_they_are_joined_by_slashes, the_example_lines_are_read,
};
pub use line::read_line;
pub use name::Name;
pub use reader::before;
pub use request::Request;
