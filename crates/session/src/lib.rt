// The table that the rig keeps for a whole session: each event is applied to it in place. docs/IN-PLACE.md says how this is proved.
#![tactic(auto)]

ghost use Rattle.machine.specs.Stepped.{Stepped};

use model::{Answer, Event, Outcome, Table};

// One event on a lent table, any event on any table: the by-value step, and a store of its result. The answer, and what the table holds
// at exit, are what `machine::step` promises of what it held at entry. Calls on one table, one after another, are `Applied` in specs/Applied, and demand 3,
// T-05 and T-10 hold of them.
pub fn apply(table: &mut Table, event: Event) -> Answer
    ensures { Stepped table.old event (record { answer = result; table = table.new }) }
{
    let o = machine::step(*table, event);
    *table = o.table;
    o.answer
}

// The same on a copy of the table, which is lent to `apply` and returned: for callers that hold a table by value.
pub fn stepped_in_place(t: Table, e: Event) -> Outcome
    ensures { Stepped t e result }
{
    let mut kept = t;
    let answer = apply(&mut kept, e);
    Outcome {
        answer: answer,
        table: kept,
    }
}
