// The text of a tree in the Aldebaran form, written into a lent buffer, in which each function asks for the room that it needs.
ghost use Rattle.std.specs.Prelude.{map, ◌++◌, ◌+◌, ◌≤◌, length};
ghost use Rattle.listing.specs.Ascii.{bytes};
ghost use Rattle.listing.specs.Decimal.{decimal};
ghost use Rattle.listing.specs.Printing.{joined, HasRoom, Wrote};
ghost use Rattle.aldebaran_text.specs.Text as text;
ghost use Rattle.aldebaran_text.specs.System.{transition};
ghost use Rattle.list_tree.specs.Tree.{edges_in, transitions_by, tree_lines, Sound};

use crate::tree::Tree;
use listing::TextBuffer;
use model::Event;

// The event's name in capitals and its numbers.
fn put_label(out: &mut TextBuffer, e: Event)
    requires { HasRoom out.old 16 }
    ensures { Wrote out.old (text.label e) out.new × (out.new.end ≤ out.old.end + 16) }
{
    let start = out.end;
    list_events::put_event(out, e);
    out.bytes[start..out.end].make_ascii_uppercase();
}

// Bytes, and a number behind them.
#[tactic(auto, using(listing::proofs::Decimal::decimal_32_long))]
fn put_with_number(out: &mut TextBuffer, w: &[u8], x: u32)
    requires { HasRoom out.old (length w.now + 10) }
    ensures { Wrote out.old (w.now ++ decimal x) out.new × (out.new.end ≤ out.old.end + length w.now + 10) }
{
    out.put(w);
    out.put_number(x as u64);
}

// The first line, for t transitions and s states.
fn put_first(out: &mut TextBuffer, t: u32, s: u32)
    requires { HasRoom out.old 32 }
    ensures { Wrote out.old (text.first_line t s) out.new × (out.new.end ≤ out.old.end + 32) }
{
    put_with_number(out, b"des (0, ", t);
    put_with_number(out, b", ", s);
    out.put(b")\n");
}

// A transition's line up to its label.
fn put_source(out: &mut TextBuffer, source: u32, e: Event)
    requires { HasRoom out.old 30 }
    ensures { Wrote out.old (bytes "(" ++ (decimal source ++ (bytes ", \"" ++ text.label e))) out.new × (out.new.end ≤ out.old.end + 30) }
{
    put_with_number(out, b"(", source);
    out.put(b", \"");
    put_label(out, e);
}

// The line of the transition from source to target by the event.
fn put_transition(out: &mut TextBuffer, source: u32, e: Event, target: u32)
    requires { HasRoom out.old 45 }
    ensures { Wrote out.old (text.transition_line (transition source e target)) out.new × (out.new.end ≤ out.old.end + 45) }
{
    put_source(out, source, e);
    put_with_number(out, b"\", ", target);
    out.put(b")\n");
}

// The lines of all transitions.
fn put_transitions(out: &mut TextBuffer, t: &Tree)
    requires { Sound t.now × HasRoom out.old 27000 }
    ensures { Wrote out.old (joined (map text.transition_line (transitions_by (edges_in t.now)))) out.new }
{
    for (k, x) in t.edges[..t.count].iter().enumerate() {
        put_transition(out, x.source as u32, x.event, k as u32 + 1);
    }
}

// The text of a tree.
pub fn put_tree(out: &mut TextBuffer, t: &Tree)
    requires { Sound t.now × HasRoom out.old 27032 }
    ensures { Wrote out.old (joined (tree_lines t.now)) out.new }
{
    let count = t.count as u32;
    put_first(out, count, count + 1);
    put_transitions(out, t);
}
