// What a user of the library writes: the public entries called one after another, and a part of demand 3, or of T-05, T-07 or T-09, cited for the table that comes out.
#![tactic(auto)]

mod bully;
mod turns;

ghost use Rattle.std.specs.Prelude.{◌≡◌, [], ◌∷◌};
ghost use Rattle.model.specs.Counts.{rows_of};
ghost use Rattle.model.specs.Range.{TwoPairs};
ghost use Rattle.model.specs.Traffic.{lost_in};
ghost use Rattle.client.specs.Fixed.{Twice};

pub use bully::agreed;
use model::{Event, Limits, Outcome};
pub use turns::whole_round;

// Two events from the starting table of n nodes with these limits, by value: the answer to the second and the table are the model's, and a Normal node's task is the one that the
// list fixed for its group.
#[tactic(auto, using(crate::proofs::Chains::by_value))]
pub fn stepped(n: u8, limits: Limits, a: Event, b: Event) -> Outcome
    ensures { Twice n limits a b result }
{
    let s = machine::starting(n, limits);
    let o = machine::step(s.table, a);
    machine::step(o.table, b)
}

// The same in place.
// kept: beside `stepped`: this crate shows what a user writes with either call, and a closure for the call would hide it.
#[tactic(auto, using(crate::proofs::Chains::in_place))]
pub fn applied(n: u8, limits: Limits, a: Event, b: Event) -> Outcome
    ensures { Twice n limits a b result }
{
    let s = machine::starting(n, limits);
    let o = session::stepped_in_place(s.table, a);
    session::stepped_in_place(o.table, b)
}

// T-05, "which cable drops messages": how many were lost in three events from the starting table of n nodes with these limits, a row for each sender. It is what the events say.
#[tactic(auto, using(crate::proofs::Chains::lost_in_three))]
pub fn lost_rows(n: u8, limits: Limits, a: Event, b: Event, c: Event) -> [[u32; 16]; 16]
    ensures { result ≡ rows_of (lost_in TwoPairs n limits (a ∷ b ∷ c ∷ [])) }
{
    let o = stepped(n, limits, a, b);
    let last = machine::step(o.table, c);
    traffic::rows(last.table.lost)
}
