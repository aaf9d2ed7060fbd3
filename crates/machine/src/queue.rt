// The table around the local step: where the event's message stands, and the table with the record stored, that message out and another in.
// kept: the messages and how many wait are two parameters with a clause, as they are two fields of 01's table; any two can be handed in, and the range tells those that fit.
ghost use Rattle.std.specs.Prelude.{◌≡◌, ℕ, ◌+◌, ◌-◌, ◌≤◌, ◌<◌, length};
ghost use Rattle.model.specs.State.{no_message, first_of, view};
ghost use Rattle.model.specs.State as spec;
ghost use Rattle.machine.specs.Parts as parts;

use crate::grounds;
use model::{Event, Message, Reaction, Table};

fn goes(a: u8, b: u8, m: Message) -> bool
    ensures { result ≡ spec.goes a b m }
{
    (m.sender == a) & (m.receiver == b)
}

// Where the oldest message from a to b stands, or how many wait.
// kept: no Option, as `place` of specs/Parts is where the message is taken out, and nothing is taken out at the end.
fn find(messages: [Message; 64], waiting: u8, a: u8, b: u8) -> usize
    requires { waiting ≤ 64 }
    ensures { (result ≡ parts.place a b (first_of waiting no_message messages)) × (result ≤ waiting) }
{
    let end = waiting as usize;
    messages[..end]
        .iter()
        .position(|m| goes(a, b, *m))
        .unwrap_or(end)
}

// Where the event's message stands; how many wait for an event that takes none. By the table's messages alone, so that no whole table is copied.
#[tactic(auto, using(crate::proofs::Parts::place_taken, crate::proofs::Parts::place_none, model::proofs::Lists::first_length))]
pub fn place_for(messages: [Message; 64], waiting: u8, e: Event) -> usize
    requires { waiting ≤ 64 }
    ensures { (result ≡ parts.place_for (first_of waiting no_message messages) e) × (result ≤ waiting) }
{
    if grounds::takes(e) {
        return find(messages, waiting, grounds::sender(e), node_step::actor(e));
    }
    waiting as usize
}

// The table with r's record at `at`, the message at k out and r's message in, and both counted; left is how many wait between.
pub fn stored(t: Table, e: Event, k: usize, left: u8, at: usize, r: Reaction) -> Table
    requires waiting_bound { (t.waiting ≤ 64) × (k ≤ left) × (parts.Left t.waiting k left) × (at < t.n) × (t.n ≤ 16) }
    requires room { parts.Room r.outgoing left }
    requires small { parts.Small t.sent × parts.Small t.delivered × parts.Small t.lost }
    ensures { view result ≡ parts.stored (view t) e k at r }
{
    let end = left as usize;
    let mut next = t;
    for j in k..end {
        next.messages[j] = next.messages[j + 1];
    }
    next.nodes[at] = r.node;
    let p = grounds::sent_place(r.outgoing);
    next.sent[p] = next.sent[p] + grounds::sent_by(r.outgoing);
    let i = grounds::moved_place(e);
    next.delivered[i] = next.delivered[i] + grounds::delivered_by(e);
    next.lost[i] = next.lost[i] + grounds::lost_by(e);
    match r.outgoing {
        None => {
            next.waiting = left;
            next
        }
        Some(m) => {
            next.messages[end] = m;
            next.waiting = left + 1;
            next
        }
    }
}
