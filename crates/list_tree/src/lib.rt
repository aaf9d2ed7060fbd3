// The accepted lists of up to four events as a tree of states, found level by level, and the text of it in the Aldebaran form (T-12). What the text is, is in crate
// aldebaran_text; what a tree means, in specs/.
#![tactic(auto)]

mod line;
mod tree;

ghost use Rattle.list_tree.specs.Printed.{SystemPrinted};

use listing::TextBuffer;

// The room for a text: no text is longer (`TextLength` in aldebaran_text).
pub const TEXT_SPACE: usize = 32768;

// The text of any input at the start of out: how many bytes it has.
#[tactic(auto, using(short_lists_text::proofs::Refuses::two_bytes, short_lists_text::proofs::Refuses::fits_are))]
pub fn put_text(input: &[u8], out: &mut [u8; TEXT_SPACE]) -> usize
    ensures { SystemPrinted input.now out.old out.new result }
{
    let mut text = TextBuffer { bytes: out, end: 0 };
    if !list_events::fits(input, 4) {
        text.put(b"stopped 0 22\n");
        return text.end;
    }
    line::put_tree(&mut text, &tree::tree_of(input[0], input[1]));
    text.end
}
