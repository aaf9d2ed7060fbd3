// The line of a list, the beginning of one, and the line of their count, written into a lent buffer. The caller sees to the room.
ghost use Rattle.std.specs.Prelude.{◌≡◌, ◌++◌, ◌+◌, ◌≤◌, ◌<◌, length, take};
ghost use Rattle.listing.specs.Ascii.{bytes};
ghost use Rattle.listing.specs.Printing.{Appended, HasRoom, Wrote};
ghost use Rattle.short_lists_text.specs.Text.{event_text, count_line};

use list_events::put_event;
use listing::TextBuffer;
use model::Event;

// No beginning of a line, and no line, is longer.
pub const LINE: usize = 128;

// The event and what parts it from the next, behind the end bytes of text: the new end.
pub fn extend(text: &mut [u8; LINE], end: usize, e: Event) -> usize
    requires { end ≤ 108 }
    ensures { (length text.new ≡ 128) × Appended text.old end (event_text e ++ bytes ", ") text.new result × (result ≤ end + 18) }
{
    let mut line = TextBuffer { bytes: text, end };
    put_event(&mut line, e);
    line.put(b", ");
    line.end
}

// The line of the list whose beginning is given and whose last event is e.
pub fn put_line(out: &mut TextBuffer, beginning: &[u8], e: Event)
    requires { HasRoom out.old 128 × (length beginning.now ≤ 108) }
    ensures { Wrote out.old (beginning.now ++ (event_text e ++ bytes "\n")) out.new × (out.old.end < out.new.end) × (out.new.end ≤ out.old.end + 128) }
{
    out.put(beginning);
    put_event(out, e);
    out.put(b"\n");
}

// The last line, for k lists.
#[tactic(auto, using(listing::proofs::Decimal::decimal_32_long))]
pub fn put_count(out: &mut TextBuffer, k: u32)
    requires { HasRoom out.old 128 }
    ensures { Wrote out.old (count_line k) out.new × (out.old.end < out.new.end) × (out.new.end ≤ out.old.end + 128) }
{
    out.put(b"lists");
    out.put_field(k as u64);
    out.put(b"\n");
}
