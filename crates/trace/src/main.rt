// A run step by step: reads a list from standard input, and writes its trace to standard output, piece by piece.
// Where the list can't be read nothing is printed; where a piece can't be written nothing more is written. `standard_io` says on standard error why.
// No promise can say what a program reads and writes. To be seen in `with_input` of standard_io: all that was read, and no more, goes to `print`. To be seen in this file: it goes on to `begin`
// and `next_piece`; each piece is written once, its first `written` bytes, before the next is made; and it stops only after the last or where a write fails.
#![tactic(auto)]

use standard_io::LIST_SPACE;
use trace_list::PIECE;

// The trace of the list, to standard output.
fn print(rt: &HostRuntime, list: &[u8]) {
    let mut out = [0; PIECE];
    let mut piece = trace_list::begin(list, &mut out);
    if !standard_io::write_all(rt, &out[..piece.written]) {
        return;
    }
    while let Some(trace) = piece.next {
        piece = trace_list::next_piece(list, trace, &mut out);
        if !standard_io::write_all(rt, &out[..piece.written]) {
            return;
        }
    }
}

fn main(rt: HostRuntime) {
    standard_io::with_input::<LIST_SPACE, _>(&rt, |list| print(&rt, list));
}
