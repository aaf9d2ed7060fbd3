// The program of T-01: reads its input, two bytes n and length, from standard input, and writes the text of all lists of that length to standard output, piece by piece.
// Where the input can't be read nothing is printed; where a piece can't be written nothing more is written. `standard_io` says on standard error why.
// No promise can say what a program reads and writes. To be seen in `with_input` of standard_io: all that was read, and no more, goes to `print`. To be seen in
// this file: it goes on to `begin`; each piece is written once, its first `written` bytes, before the next is made; and it stops only after the last or where a
// write fails.
#![tactic(auto)]

use list_search::PIECE;

// One byte more than an input may have. Of a longer one only so many are read, which is enough: `Refuses.first_three` in short_lists_text.
const INPUT_SPACE: usize = 3;

// The text of the input, to standard output.
fn print(rt: &HostRuntime, input: &[u8]) {
    let mut out = [0; PIECE];
    let mut next = Some(list_search::begin(input));
    while let Some(s) = next {
        let p = list_search::next_lines(s, &mut out);
        if !standard_io::write_all(rt, &out[..p.written]) {
            return;
        }
        next = p.next;
    }
}

fn main(rt: HostRuntime) {
    standard_io::with_input::<INPUT_SPACE, _>(&rt, |input| print(&rt, input));
}
