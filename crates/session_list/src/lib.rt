// A list of events run on one table that is kept for the whole session, each applied in place; the lines that are printed of them; and the table that they leave.
// The loop is that of `run_list` over the step in place, and hands the table on. The text of the list is the one that `run_list` prints: specs/Text there.
#![tactic(auto)]

ghost use Rattle.std.specs.Prelude.{◌≡◌, ◌≤◌, length};
ghost use Rattle.model.specs.State.{view};
ghost use Rattle.event_list.specs.Format.{rest};
ghost use Rattle.listing.specs.Printing.{Printed, Whole, WroteLines};
ghost use Rattle.run_list.specs.Text.{lines_of};
ghost use Rattle.session_list.specs.Ran.{RanFrom, RanAll};

use listing::{NoRoom, TextBuffer};
use model::Table;
use run_list::TEXT_LIMIT;

// The events of list behind its first field, applied to the table, which starts as start; and the lines of those that are refused, and of the place where the list stopped. The last
// table is not printed yet.
fn run(list: &[u8], out: &mut TextBuffer, start: Table) -> Result<Option<Table>, NoRoom>
    requires { (4 ≤ length list.now) × (length list.now ≤ 65536) }
    ensures { RanFrom (view start) (rest list.now 4) out.old out.new result }
{
    let mut table = start;
    let mut at: usize = 4;
    let mut e: u32 = 1;
    // kept: a loop over offsets, and the number of the event beside them, as in run_list; here the step is another, and the table is a session's.
    loop {
        match event_list::event_at(list, at) {
            Ok(None) => return Ok(Some(table)),
            Err(s) => {
                out.put_stopped(at as u32, event_list::stop_number(s))?;
                return Ok(Some(table));
            }
            Ok(Some((event, next))) => {
                let o = session::stepped_in_place(table, event);
                run_list::note(out, e, o.answer)?;
                table = o.table;
                at = next;
                e += 1;
            }
        }
    }
}

// All of list, and all that is printed of it, behind what is written in out, but for its last table, which is answered; none where the first field is not good.
pub fn run_all(list: &[u8], out: &mut TextBuffer) -> Result<Option<Table>, NoRoom>
    ensures { RanAll list.now out.old out.new result }
{
    match run_list::put_heading(list, out)? {
        None => Ok(None),
        Some((n, limits)) => {
            let begun = machine::starting(n, limits);
            run(list, out, begun.table)
        }
    }
}

// The lines of list, behind what is written in out.
fn print_lines(list: &[u8], out: &mut TextBuffer) -> Result<(), NoRoom>
    ensures { WroteLines out.old (lines_of list.now) result out.new }
{
    match run_all(list, out)? {
        None => Ok(()),
        Some(table) => out.put_table(table),
    }
}

// The text of list at the start of out, and its length; or refusal 15.
#[tactic(auto, using(listing::proofs::Written::lines_in))]
fn print(list: &[u8], out: &mut [u8]) -> Result<usize, NoRoom>
    ensures { Printed (lines_of list.now) out.old out.new result }
{
    listing::print_into(out, |text| print_lines(list, text))
}

// The text of list at the start of out, and its length: `run_list::print_whole`, with the events applied in place.
pub fn print_whole(list: &[u8], out: &mut [u8; TEXT_LIMIT]) -> usize
    ensures { Whole (lines_of list.now) out.old out.new result }
{
    print(list, out).unwrap_or(0)
}
