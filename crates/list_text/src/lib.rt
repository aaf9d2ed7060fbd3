// A list as text, both ways: the types of what is found in a text.
// What is printed for a list is in specs/Text, what a text says in specs/Words and specs/Script, and what is claimed of both in specs/Claims. There is no code here: list_printer and list_parser have it.
#![tactic(auto)]

use model::Event;

// What was expected where a text goes wrong.
#[derive(Clone, Copy)]
pub enum Expected {
    // `cabinets` or `stand`
    Opening,
    // a number that one byte holds
    Number,
    // a number that two bytes hold
    Task,
    // the name of an event
    Name,
    // a comma or the end of the line
    Separator,
    // the end of the text before this event, which the list has no room for
    EndOfList,
    // the end of the text, because a text may not be longer
    EndOfText,
}

// Where a text goes wrong, and what was expected there.
#[derive(Clone, Copy)]
pub struct Wrong {
    pub at: usize,
    pub expected: Expected,
}

// What stands where a number is due: its value, and the offset behind it; or the offset where it was due.
pub type Number = Result<(u32, usize), usize>;

// What the opening of a text says: the first field's tag and n, and the offset behind them.
pub type Opening = Result<(u8, u8, usize), Wrong>;

// What follows in a text: an event, and the offset behind it; or its end.
pub type Part = Result<Option<(Event, usize)>, Wrong>;

// A place in a text: its line and its column, both counted from 1, the column in bytes.
#[derive(Clone, Copy)]
pub struct Place {
    pub line: u32,
    pub column: u32,
}
