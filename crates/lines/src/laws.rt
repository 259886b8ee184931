// How lines are read, in plain words. Each body is empty: the contract is the law.
ghost use Rattle.lines.specs.Examples.{ExampleLines};
ghost use Rattle.lines.specs.Laws.{FieldsInOrder, LettersPick, NumbersInDecimal, LabelsJoined};

// A line is read exactly when its letter is one of the forms and its fields stand in order, each after one space as its
// key, the sign `=` and its value, with nothing more.
pub fn a_line_is_read_exactly_when_its_fields_stand_in_order()
    ensures fields { FieldsInOrder }
    ensures letters { LettersPick }
{}

// A number is read exactly when it is written in decimal and is below 2^32.
pub fn a_number_is_read_exactly_when_it_is_in_decimal()
    ensures { NumbersInDecimal }
{}

// Labels are read exactly when they are joined by slashes, and are not more than the limit.
pub fn labels_are_read_exactly_when_they_are_joined_by_slashes()
    ensures { LabelsJoined }
{}

// What the example lines of the rules ask for, and some lines of bad form.
pub fn the_example_lines_are_read()
    ensures { ExampleLines }
{}
