// A list of events run step by step, and the text of each step, in pieces. What the text is, is in crate trace_text; what a trace means, in specs/.
#![tactic(auto)]

mod records;
mod steps;
mod words;

ghost use Rattle.std.specs.Prelude.{◌≡◌, true, ◌∷◌, ◌+◌, ◌≤◌, ◌<◌, ◌^◌};
ghost use Rattle.model.specs.State.{start, in_range, view};
ghost use Rattle.model.specs.Step as spec;
ghost use Rattle.listing.specs.Lines.{cabinets_line, stopped_line, table_lines};
ghost use Rattle.listing.specs.Printing.{joined, Printed, WroteLines};
ghost use Rattle.trace_text.specs.Trace.{step_lines, trace_pieces};
ghost use Rattle.trace_list.specs.Pieces.{SoundTrace, BegunTrace, GavePiece, EndPiece, MidPiece};

use listing::{NoRoom, TextBuffer};
use model::{Event, Limits, Table};

// The room for a piece.
pub const PIECE: usize = 1024;

// How far a list was run: the offset of the next field, the number of the next event, and the table now. Only `begin` and `next_piece` make one.
#[derive(Clone, Copy)]
pub struct Trace {
    at: usize,
    event: u32,
    table: Table,
}

// So many bytes were written. Where they are not the last of the text, next goes on with the next.
#[derive(Clone, Copy)]
pub struct TracePiece {
    pub written: usize,
    pub next: Option<Trace>,
}

// A list whose first field is refused by r: its line, alone. There is room for it, and for all lines of a piece.
fn refused(r: u8, out: &mut [u8; PIECE]) -> TracePiece
    requires { r ≤ 22 }
    ensures { EndPiece (stopped_line 0 r) out.new result }
{
    let mut text = TextBuffer { bytes: out, end: 0 };
    let _ = text.put_stopped(0, r);
    TracePiece {
        written: text.end,
        next: None,
    }
}

// How many nodes there are; the trace goes on from their starting table.
fn headed(n: u8, limits: Limits, out: &mut [u8; PIECE]) -> TracePiece
    requires { n ≤ 16 }
    ensures { MidPiece 4 1 (start n limits) (cabinets_line n) out.new result }
{
    let begun = machine::starting(n, limits);
    let mut text = TextBuffer { bytes: out, end: 0 };
    let _ = text.put_cabinets(n);
    TracePiece {
        written: text.end,
        next: Some(Trace {
            at: 4,
            event: 1,
            table: begun.table,
        }),
    }
}

// The first piece of the text of any list, at the start of out.
pub fn begin(list: &[u8], out: &mut [u8; PIECE]) -> TracePiece
    ensures { BegunTrace list.now out.new result }
{
    match event_list::first_of(list) {
        Err(s) => refused(event_list::stop_number(s), out),
        Ok((n, limits)) => headed(n, limits, out),
    }
}

// The list ended: the table.
fn ended(t: Trace, out: &mut [u8; PIECE]) -> TracePiece
    requires { in_range (view t.table) ≡ true }
    ensures { EndPiece (joined (table_lines (view t.table))) out.new result }
{
    let mut text = TextBuffer { bytes: out, end: 0 };
    let _ = text.put_table(t.table);
    TracePiece {
        written: text.end,
        next: None,
    }
}

// The list stopped by r: the line of that, and the table.
fn stopped(t: Trace, r: u8, out: &mut [u8; PIECE]) -> TracePiece
    requires { (in_range (view t.table) ≡ true) × (t.at ≤ 65536) × (r ≤ 22) }
    ensures { EndPiece (joined (stopped_line t.at r ∷ table_lines (view t.table))) out.new result }
{
    let mut text = TextBuffer { bytes: out, end: 0 };
    let _ = text.put_stopped(t.at as u32, r);
    let _ = text.put_table(t.table);
    TracePiece {
        written: text.end,
        next: None,
    }
}

// The next event, which is v, and behind which the next field stands at next: one step.
fn stepped(t: Trace, v: Event, next: usize, out: &mut [u8; PIECE]) -> TracePiece
    requires { (in_range (view t.table) ≡ true) × (t.event + 1 < 2 ^ 32) }
    ensures { MidPiece next (t.event + 1) (spec.after (view t.table) v) (joined (step_lines (view t.table) t.event v)) out.new result }
{
    let o = machine::advance(t.table, v);
    let mut text = TextBuffer { bytes: out, end: 0 };
    steps::put_step(&mut text, t.event, v, t.table, o);
    TracePiece {
        written: text.end,
        next: Some(Trace {
            at: next,
            event: t.event + 1,
            table: o.table,
        }),
    }
}

// The next piece of the text that list still gives from t on, at the start of out: to be called with the trace that the call before gave, until one gives none.
pub fn next_piece(list: &[u8], t: Trace, out: &mut [u8; PIECE]) -> TracePiece
    requires { SoundTrace list.now t }
    ensures { GavePiece list.now t out.new result }
{
    let at = t.at;
    match event_list::event_at(list, at) {
        Ok(None) => ended(t, out),
        Err(s) => stopped(t, event_list::stop_number(s), out),
        Ok(Some((v, next))) => stepped(t, v, next, out),
    }
}

// The pieces of list, behind what is written in out.
fn print_pieces(list: &[u8], out: &mut TextBuffer) -> Result<(), NoRoom>
    ensures { WroteLines out.old (trace_pieces list.now) result out.new }
{
    let mut bytes = [0u8; PIECE];
    let mut piece = begin(list, &mut bytes);
    out.put_line(&bytes[..piece.written])?;
    while let Some(trace) = piece.next {
        piece = next_piece(list, trace, &mut bytes);
        out.put_line(&bytes[..piece.written])?;
    }
    Ok(())
}

// The text of list at the start of out, and its length; or refusal 15.
#[tactic(auto, using(listing::proofs::Written::lines_in))]
pub fn print(list: &[u8], out: &mut [u8]) -> Result<usize, NoRoom>
    ensures { Printed (trace_pieces list.now) out.old out.new result }
{
    listing::print_into(out, |text| print_pieces(list, text))
}
