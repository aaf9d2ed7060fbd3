// The program of T-12: reads its input, two bytes n and L, from standard input, and writes the text of the transition system of all accepted lists of up to L events to standard output, or
// `stopped 0 22`. Where the input can't be read nothing is printed. `standard_io` says on standard error why, and also where the text can't be written: the exit status is 0 in any case.
// No promise can say what a program reads and writes. To be seen in `print_text` of standard_io: all that was read, and no more, goes to `put_text`, and its text is written, all of it, once.
#![tactic(auto)]

use list_tree::TEXT_SPACE;

// One byte more than an input may have. Of a longer one only the first three are read, which is enough: `RefusedInputs.first_three` in aldebaran_text.
const INPUT_SPACE: usize = 3;

fn main(rt: HostRuntime) {
    standard_io::print_text::<INPUT_SPACE, _, _>(&rt, &mut [0; TEXT_SPACE], list_tree::put_text);
}
