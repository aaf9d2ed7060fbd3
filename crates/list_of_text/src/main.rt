// A text as list: reads a text from standard input, and writes the list that it stands for to standard output.
// Of a bad text nothing is written there, and standard error has a line with its place and what was expected. Where the text can't be read, or the list can't be written, standard error says why.
#![tactic(auto)]

use list_parser::{Bad, LIST_LIMIT, MESSAGE_LIMIT, TEXT_LIMIT};

// One byte more than a text may have, so that a longer one is known.
const TEXT_SPACE: usize = TEXT_LIMIT + 1;

// Where the text is bad and what was expected there, to standard error.
fn tell(rt: &HostRuntime, bad: Bad) {
    let mut message = [0; MESSAGE_LIMIT];
    let n = list_parser::put_message(&mut message, bad);
    standard_io::tell(rt, &message[..n]);
}

// The list of the text, to standard output.
fn write(rt: &HostRuntime, text: &[u8]) {
    let mut list = [0; LIST_LIMIT];
    match list_parser::list_of_text(text, &mut list) {
        Ok(n) => {
            standard_io::write_all(rt, &list[..n]);
        }
        Err(bad) => tell(rt, bad),
    }
}

fn main(rt: HostRuntime) {
    standard_io::with_input::<TEXT_SPACE, _>(&rt, |text| write(&rt, text));
}
