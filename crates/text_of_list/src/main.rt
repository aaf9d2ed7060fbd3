// A list as text: reads a list from standard input, and writes its text to standard output.
// Where the list can't be read nothing is printed, and standard error says why; so it does where the text can't be written.
#![tactic(auto)]

use list_printer::LIST_TEXT_LIMIT;
use standard_io::LIST_SPACE;

fn main(rt: HostRuntime) {
    standard_io::print_text::<LIST_SPACE, _, _>(
        &rt,
        &mut [0; LIST_TEXT_LIMIT],
        list_printer::print_whole,
    );
}
