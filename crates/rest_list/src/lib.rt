// T-13: a list of events run, then turns of the round until no message waits, and the text that is printed for it.
// What the text is, is in specs/Text; what the turns are, in rest_bound/specs/Turns.
#![tactic(auto)]

ghost use Rattle.std.specs.Prelude.{◌≡◌, true};
ghost use Rattle.model.specs.State.{view, in_range};
ghost use Rattle.listing.specs.Printing.{Printed, Whole, WroteLines};
ghost use Rattle.round.specs.Order.{first_pair};
ghost use Rattle.rest_bound.specs.Potential.{suited};
ghost use Rattle.rest_list.specs.Text.{rest_lines, rest_lines_of};
ghost use Rattle.rest_list.specs.Rested.{RestedFrom};

use listing::{NoRoom, TextBuffer};
use model::Table;
use round::Place;

// The table in which no message waits, and how many turns were made until then.
#[derive(Clone, Copy)]
struct Rested {
    table: Table,
    turns: u32,
}

fn first_pair() -> Place
    ensures { result ≡ first_pair }
{
    Place {
        sender: 1,
        receiver: 2,
    }
}

// Turns of the round from its first pair on, until no message waits. That it ends is T-13's claim: after as many turns as `turn_bound` says no message waits (`TurnsEnd`, and
// `PotentialFalls.bounded`), and the loop has fewer of them left each time.
fn turns_to_rest(t: Table) -> Rested
    requires { (in_range (view t) ≡ true) × (suited (view t) ≡ true) }
    ensures { RestedFrom (view t) result }
{
    let mut u = t;
    let mut p = first_pair();
    let mut k: u32 = 0;
    // kept: k counts the turns, which is what is asked for
    while u.waiting != 0 {
        let o = driver::turn(u, p);
        u = o.table;
        p = o.place;
        k += 1;
    }
    Rested { table: u, turns: k }
}

// How many turns are made from the table on, and the table in which no message waits.
fn put_rest(out: &mut TextBuffer, t: Table) -> Result<(), NoRoom>
    requires { (in_range (view t) ≡ true) × (suited (view t) ≡ true) }
    ensures { WroteLines out.old (rest_lines (view t)) result out.new }
{
    let r = turns_to_rest(t);
    out.put_turns(r.turns)?;
    out.put_table(r.table)
}

// The lines of list, behind what is written in out.
fn print_lines(list: &[u8], out: &mut TextBuffer) -> Result<(), NoRoom>
    ensures { WroteLines out.old (rest_lines_of list.now) result out.new }
{
    match session_list::run_all(list, out)? {
        None => Ok(()),
        Some(table) => put_rest(out, table),
    }
}

// The text of list at the start of out, and its length; or refusal 15, and then its lines up to the first that has no room.
#[tactic(auto, using(listing::proofs::Written::lines_in))]
pub fn print(list: &[u8], out: &mut [u8]) -> Result<usize, NoRoom>
    ensures { Printed (rest_lines_of list.now) out.old out.new result }
{
    listing::print_into(out, |text| print_lines(list, text))
}

// No text is longer.
pub const REST_LIMIT: usize = 279163;

// The text of list at the start of out, and its length: there is always room.
pub fn print_whole(list: &[u8], out: &mut [u8; REST_LIMIT]) -> usize
    ensures { Whole (rest_lines_of list.now) out.old out.new result }
{
    print(list, out).unwrap_or(0)
}
