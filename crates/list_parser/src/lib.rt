// From a text to the list that it stands for, and what is told of a bad text.
// What that is, is in list_text/specs: Words, Script and Message.
#![tactic(auto)]

mod cursor;
mod events;
mod fields;
mod message;
mod words;

ghost use Rattle.std.specs.Prelude.{◌≡◌, ◌≤◌, length, take};
ghost use Rattle.list_text.specs.Words.{past_skipped};
ghost use Rattle.list_text.specs.Script.{place_of, opening_at, said_from, behind_opening};
ghost use Rattle.list_parser.specs.Made.{Fills, filled_by, filled_from, Made};

use cursor::Cursor;
use events::{opening_at, part_at};
use fields::{field_size, put_event, put_one};
use list_text::{Expected, Place, Wrong};
use listing::TextBuffer;
pub use message::{MESSAGE_LIMIT, put_message};

// A text is bad at a place, where something else was expected.
#[derive(Clone, Copy)]
pub struct Bad {
    pub place: Place,
    pub expected: Expected,
}

// A text may have so many bytes.
pub const TEXT_LIMIT: usize = 1048576;

// A list may have so many.
pub const LIST_LIMIT: usize = 65536;

// The line and column of an offset.
#[tactic(auto, using(crate::proofs::Places::place_line, crate::proofs::Places::place_column, crate::proofs::Places::place_end))]
fn place_of(t: &[u8], at: usize) -> Place
    requires { (at ≤ length t.now) × (at ≤ 1048576) }
    ensures { result ≡ place_of t.now at }
{
    let mut line: u32 = 1;
    let mut column: u32 = 1;
    for b in &t[..at] {
        if *b == b'\n' {
            line += 1;
            column = 1;
        } else {
            column += 1;
        }
    }
    Place { line, column }
}

// The fields of the events from a place on, written into out behind the first field, which has 4 bytes.
fn put_events(from: Cursor, out: &mut TextBuffer) -> Result<(), Wrong>
    requires { (length out.old.bytes.now ≡ 65536) × (out.old.end ≡ 4) }
    ensures { Fills (filled_by (take 4 out.old.bytes.now) (said_from from.entry.text.now from.entry.at 65532)) from.entry.text.now out.new result }
{
    let mut p = from;
    while let Some((e, next)) = part_at(p)? {
        if LIST_LIMIT - out.end < field_size(e) {
            return Err(Wrong {
                at: next,
                expected: Expected::EndOfList,
            });
        }
        put_event(out, e);
        p = p.to(next);
    }
    Ok(())
}

// All fields of the list of a text that is not too long, written into out, where nothing is written yet.
fn put_list(t: &[u8], out: &mut TextBuffer) -> Result<(), Wrong>
    requires { (length out.old.bytes.now ≡ 65536) × (out.old.end ≡ 0) }
    ensures { Fills (filled_from (behind_opening t.now (opening_at t.now (past_skipped t.now 0)))) t.now out.new result }
{
    let start = Cursor { text: t, at: 0 }.past_skipped();
    let (tag, n, next) = opening_at(start)?;
    put_one(out, tag, n);
    put_events(start.to(next), out)
}

// The list of a text at the start of out: its length. Of a bad text out stays as it was, and the answer says where it is bad and what was expected there.
pub fn list_of_text(t: &[u8], out: &mut [u8; LIST_LIMIT]) -> Result<usize, Bad>
    ensures { Made t.now out.old out.new result }
{
    if TEXT_LIMIT < t.len() {
        return Err(Bad {
            place: place_of(t, TEXT_LIMIT),
            expected: Expected::EndOfText,
        });
    }
    let mut bytes = [0; LIST_LIMIT];
    let mut list = TextBuffer {
        bytes: &mut bytes,
        end: 0,
    };
    match put_list(t, &mut list) {
        Ok(()) => {
            let k = list.end;
            out[..k].copy_from_slice(&list.bytes[..k]);
            Ok(k)
        }
        Err(w) => Err(Bad {
            place: place_of(t, w.at),
            expected: w.expected,
        }),
    }
}
