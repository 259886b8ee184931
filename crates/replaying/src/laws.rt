ghost use Rattle.std.specs.Prelude.{ℕ, List};
ghost use Rattle.replaying.specs.Lines.{IsItsLines};

// Every input is its lines, one after another, each ended by byte 10, the last perhaps not.
pub fn an_input_is_its_lines_each_ended_by_byte_10()
    ensures { (input : List ℕ) → IsItsLines input }
{}
