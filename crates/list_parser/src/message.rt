// What is told of a bad text.
ghost use Rattle.std.specs.Prelude.{◌+◌, ◌≤◌, length};
ghost use Rattle.listing.specs.Printing.{Appended, HasRoom, Wrote};
ghost use Rattle.list_text.specs.Message.{expected_text, message_text};

use crate::Bad;
use list_text::Expected;
use listing::TextBuffer;

// No message is longer.
pub const MESSAGE_LIMIT: usize = 128;

// What was expected.
#[tactic(auto, unfolding(list_text::specs::Message::expected_text))]
fn put_expected(out: &mut TextBuffer, x: Expected)
    requires { HasRoom out.old 80 }
    ensures { Wrote out.old (expected_text x) out.new × (out.new.end ≤ out.old.end + 80) }
{
    match x {
        Expected::Opening => out.put(b"cabinets or stand"),
        Expected::Number => out.put(b"a number from 0 to 255"),
        Expected::Task => out.put(b"a number from 0 to 65535"),
        Expected::Name => out.put(
            b"an event: crash, recover, check, timeout, tick, expire, finish, deliver or lose",
        ),
        Expected::Separator => out.put(b"a comma or the end of the line"),
        Expected::EndOfList => out.put(
            b"the end of the text before this event: a list has at most 65536 bytes",
        ),
        Expected::EndOfText => out.put(b"the end of the text: a text has at most 1048576 bytes"),
    }
}

// The line and column, and what was expected there, at the start of out: how many bytes that are.
#[tactic(auto, using(listing::proofs::Decimal::decimal_32_long))]
pub fn put_message(out: &mut [u8; MESSAGE_LIMIT], bad: Bad) -> usize
    ensures { Appended out.old 0 (message_text bad.place bad.expected) out.new result }
{
    let mut text = TextBuffer { bytes: out, end: 0 };
    text.put(b"line ");
    text.put_number(bad.place.line as u64);
    text.put(b", column ");
    text.put_number(bad.place.column as u64);
    text.put(b": expected ");
    put_expected(&mut text, bad.expected);
    text.put(b"\n");
    text.end
}
