// The bench program over a table that is kept for the whole session: reads a list from standard input, applies its events in place,
// and writes what is printed for it to standard output.
// Where the list can't be read nothing is printed, and standard error says why; so it does where the text can't be written.
#![tactic(auto)]

use run_list::TEXT_LIMIT;
use standard_io::LIST_SPACE;

fn main(rt: HostRuntime) {
    standard_io::print_text::<LIST_SPACE, _, _>(
        &rt,
        &mut [0; TEXT_LIMIT],
        session_list::print_whole,
    );
}
