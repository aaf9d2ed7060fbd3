// The text of a list: a line for its first field and one for each event, up to where it ends or stops. Nothing is run.
// What the text is, is in list_text/specs/Text.
#![tactic(auto)]

ghost use Rattle.std.specs.Prelude.{◌≡◌, [], ◌∷◌, ◌++◌, map, ◌≤◌, length};
ghost use Rattle.event_list.specs.Format.{rest};
ghost use Rattle.listing.specs.Printing.{Printed, Whole, WroteLines};
ghost use Rattle.run_list.specs.Text.{ending_lines};
ghost use Rattle.list_text.specs.Text.{opening_line, event_line, list_lines};

use listing::{NoRoom, TextBuffer};
use model::Event;

// The line of a first field, by its tag: 0x01 is the tower's, 0x02 the stand's.
fn put_opening(out: &mut TextBuffer, tag: u8, n: u8) -> Result<(), NoRoom>
    ensures { WroteLines out.old (opening_line tag n ∷ []) result out.new }
{
    if tag == 0x01 {
        return out.put_cabinets(n);
    }
    out.put_one(b"stand ", n as u64)
}

// The line of an event: its text has 16 bytes at most.
fn put_event_line(out: &mut TextBuffer, e: Event) -> Result<(), NoRoom>
    ensures { WroteLines out.old (event_line e ∷ []) result out.new }
{
    let mut line = [0u8; 17];
    let mut text = TextBuffer {
        bytes: &mut line,
        end: 0,
    };
    list_events::put_event(&mut text, e);
    text.put(b"\n");
    let n = text.end;
    out.put_line(&line[..n])
}

// The events of list behind its first field, and where it stops, that.
fn put_events(list: &[u8], out: &mut TextBuffer) -> Result<(), NoRoom>
    requires { (4 ≤ length list.now) × (length list.now ≤ 65536) }
    ensures { WroteLines out.old (map event_line (rest list.now 4).events ++ ending_lines (rest list.now 4).ending) result out.new }
{
    let mut at: usize = 4;
    // kept: a loop over offsets: where the list stops, its offset is printed, which an iterator of events would have to carry too.
    loop {
        match event_list::event_at(list, at) {
            Ok(None) => return Ok(()),
            Err(s) => return out.put_stopped(at as u32, event_list::stop_number(s)),
            Ok(Some((event, next))) => {
                put_event_line(out, event)?;
                at = next;
            }
        }
    }
}

// The lines of list, behind what is written in out.
fn print_lines(list: &[u8], out: &mut TextBuffer) -> Result<(), NoRoom>
    ensures { WroteLines out.old (list_lines list.now) result out.new }
{
    match event_list::first_of(list) {
        Err(s) => out.put_stopped(0, event_list::stop_number(s)),
        Ok((n, _)) => {
            put_opening(out, list[0], n)?;
            put_events(list, out)
        }
    }
}

// The text of list at the start of out, and its length; or refusal 15.
#[tactic(auto, using(listing::proofs::Written::lines_in))]
pub fn print(list: &[u8], out: &mut [u8]) -> Result<usize, NoRoom>
    ensures { Printed (list_lines list.now) out.old out.new result }
{
    listing::print_into(out, |text| print_lines(list, text))
}

// No text is longer.
pub const LIST_TEXT_LIMIT: usize = 278540;

// The text of list at the start of out, and its length: there is always room.
pub fn print_whole(list: &[u8], out: &mut [u8; LIST_TEXT_LIMIT]) -> usize
    ensures { Whole (list_lines list.now) out.old out.new result }
{
    print(list, out).unwrap_or(0)
}
