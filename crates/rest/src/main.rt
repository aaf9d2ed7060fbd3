// T-13's program: reads a list from standard input, runs it and then makes turns of the round until no message waits, and writes what is printed for it to standard output.
// Where the list can't be read nothing is printed, and standard error says why; so it does where the text can't be written.
#![tactic(auto)]

use rest_list::REST_LIMIT;
use standard_io::LIST_SPACE;

fn main(rt: HostRuntime) {
    standard_io::print_text::<LIST_SPACE, _, _>(&rt, &mut [0; REST_LIMIT], rest_list::print_whole);
}
