// A list of events run from the starting table, and the text that is printed for it.
// What the text is, is in specs/Text.
#![tactic(auto)]

ghost use Rattle.std.specs.Prelude.{◌≡◌, true, ◌∷◌, ◌≤◌, length};
ghost use Rattle.model.specs.Answers.{answer_number};
ghost use Rattle.model.specs.State.{view, in_range};
ghost use Rattle.model.specs.State as state;
ghost use Rattle.event_list.specs.Format.{stop_number, rest};
ghost use Rattle.listing.specs.Lines.{stopped_line, table_lines};
ghost use Rattle.listing.specs.Printing.{Printed, Whole, WroteLines};
ghost use Rattle.run_list.specs.Text.{note_lines, run_lines, lines_of, Headed};

use event_list::Stop;
use listing::{NoRoom, TextBuffer};
use model::{Answer, Limits, Table};

// The first line of list's text; and the number of nodes and the limits of the run that follows, where the first field is good.
pub fn put_heading(list: &[u8], out: &mut TextBuffer) -> Result<Option<(u8, Limits)>, NoRoom>
    ensures { Headed list.now out.old out.new result }
{
    match event_list::first_of(list) {
        Err(s) => {
            out.put_stopped(0, event_list::stop_number(s))?;
            Ok(None)
        }
        Ok((n, limits)) => {
            out.put_cabinets(n)?;
            Ok(Some((n, limits)))
        }
    }
}

// The line of event e, where it is refused.
pub fn note(out: &mut TextBuffer, e: u32, answer: Answer) -> Result<(), NoRoom>
    ensures { WroteLines out.old (note_lines e (answer_number answer)) result out.new }
{
    let r = predicates::answer_number(answer);
    if r == 0 {
        return Ok(());
    }
    out.put_refused(e, r)
}

// The line of a list that stopped at b, and the table.
fn stop(out: &mut TextBuffer, b: u32, s: Stop, t: Table) -> Result<(), NoRoom>
    ensures { WroteLines out.old (stopped_line b (stop_number s) ∷ table_lines (view t)) result out.new }
{
    out.put_stopped(b, event_list::stop_number(s))?;
    out.put_table(t)
}

// The events of list behind its first field, run from the starting table start, and all that is printed of them. The table stands in this function's own local and its
// messages in q; the functions that it calls take a node, a message and numbers, so no table is copied. No event of a run meets 17, so it is not tested.
// kept: the list's length in a clause, here and where else a list is gone through behind its first field: `first_of` is the test, and hands on n and the limits alone.
fn run(list: &[u8], out: &mut TextBuffer, start: Table) -> Result<(), NoRoom>
    requires { (4 ≤ length list.now) × (length list.now ≤ 65536) × (in_range (view start) ≡ true) × (view start ≡ state.start start.n start.limits) }
    ensures { WroteLines out.old (run_lines (view start) 1 (rest list.now 4)) result out.new }
{
    let mut t = start;
    let mut q = packed::none();
    let mut at: usize = 4;
    let mut e: u32 = 1;
    // kept: a loop over offsets, and the number of the event beside them: where the list stops, its offset is printed, which an iterator of events would have to carry too.
    loop {
        match event_list::event_at(list, at) {
            Ok(None) => return out.put_table(t),
            Err(s) => return stop(out, at as u32, s, t),
            Ok(Some((event, next))) => {
                let waiting = t.waiting;
                let i = packed::seat(event);
                let c = t.nodes[i];
                let ruling = packed::rule(&q, t.n, t.limits.messages, waiting, c, event);
                match ruling.verdict {
                    Ok(reaction) => {
                        let outgoing = reaction.outgoing;
                        t.nodes[i] = reaction.node;
                        t.waiting = packed::exchange(&mut q, ruling.place, waiting, outgoing);
                        let s = machine::sent_place(outgoing);
                        t.sent[s] += machine::sent_by(outgoing);
                        let m = machine::moved_place(event);
                        t.delivered[m] += machine::delivered_by(event);
                        t.lost[m] += machine::lost_by(event);
                        // kept: an end of its own for each arm: tried with one end for both, the proof didn't close
                        at = next;
                        e += 1;
                        continue;
                    }
                    Err(refusal) => {
                        note(out, e, Err(refusal))?;
                    }
                }
                at = next;
                e += 1;
            }
        }
    }
}

// The lines of list, behind what is written in out.
fn print_lines(list: &[u8], out: &mut TextBuffer) -> Result<(), NoRoom>
    ensures { WroteLines out.old (lines_of list.now) result out.new }
{
    match put_heading(list, out)? {
        None => Ok(()),
        Some((n, limits)) => {
            let begun = machine::starting(n, limits);
            run(list, out, begun.table)
        }
    }
}

// The text of list at the start of out, and its length; or refusal 15.
#[tactic(auto, using(listing::proofs::Written::lines_in))]
pub fn print(list: &[u8], out: &mut [u8]) -> Result<usize, NoRoom>
    ensures { Printed (lines_of list.now) out.old out.new result }
{
    listing::print_into(out, |text| print_lines(list, text))
}

// No text is longer.
pub const TEXT_LIMIT: usize = 279149;

// The text of list at the start of out, and its length: there is always room.
pub fn print_whole(list: &[u8], out: &mut [u8; TEXT_LIMIT]) -> usize
    ensures { Whole (lines_of list.now) out.old out.new result }
{
    print(list, out).unwrap_or(0)
}
