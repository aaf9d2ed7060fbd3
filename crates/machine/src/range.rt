// Whether a table is in range, for any table.
ghost use Rattle.std.specs.Prelude.{◌≡◌};
ghost use Rattle.model.specs.State.{view};
ghost use Rattle.model.specs.State as spec;
ghost use Rattle.machine.specs.Parts as parts;

use model::{Limits, Table};

// By the limits first: those of the tower or the stand, then n and the waiting messages by the table's own. So n is at most 16, and at most 64 wait.
fn within_limits(limits: Limits, n: u8, waiting: u8) -> bool
    ensures { result ≡ parts.within_limits limits n waiting }
{
    predicates::is_tower_or_stand(limits)
        & !predicates::wrong_count(limits.nodes, n)
        & (waiting <= limits.messages)
}

pub fn in_range(t: Table) -> bool
    ensures { result ≡ spec.in_range (view t) }
{
    let n = t.n;
    if !within_limits(t.limits, n, t.waiting) {
        return false;
    }
    // kept: tried, and it misses a speed bar: t's arrays lent as they stand, `&t.nodes[..]`, make `step` twice as slow.
    let nodes = t.nodes;
    let messages = t.messages;
    let sent = t.sent;
    let delivered = t.delivered;
    let lost = t.lost;
    predicates::all_from_one(
        &nodes[..n as usize],
        |i, c| node_step::node_in_range(n, i, c),
    ) & predicates::all_from_one(
        &messages[..t.waiting as usize],
        |_, m| node_step::message_in_range(n, m),
    ) & traffic::traffic_in_range(n, messages, t.waiting, &sent, &delivered, &lost)
}
