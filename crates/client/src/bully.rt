// The same with the Bully machine (02, T-07): its entries called one after another, and its claim cited for the table that comes out.
ghost use Rattle.client.specs.Agreed.{Agreed};

use bully_model::{Event, Outcome};

// Two events from the starting table of n nodes: the answer to the second and the table are the model's, two nodes in Reorganization or Normal have the same coordinator, and
// two Normal ones the same task.
pub fn agreed(n: u8, a: Event, b: Event) -> Outcome
    ensures { Agreed n a b result }
{
    let s = bully_machine::starting(n);
    let o = bully_machine::step(s.table, a);
    bully_machine::step(o.table, b)
}
