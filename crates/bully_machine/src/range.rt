// Whether a table is in range, for any table: the definitions of bully_model's specs/Range as functions.
ghost use Rattle.std.specs.Prelude.{◌≡◌, ◌≤◌, take};
ghost use Rattle.model.specs.Limits.{node_limit};
ghost use Rattle.model.specs.State.{every};
ghost use Rattle.bully_model.specs.Range as spec;
ghost use Rattle.bully_model.specs.State.{in_range, view};

use crate::node;
use bully_model::{Node, Place, Table};

#[tactic(auto, unfolding(bully_model::specs::Range::place_in_range))]
fn place_in_range(n: u8, i: u8, o: u8, p: Place) -> bool
    requires { (1 ≤ i) × (i ≤ node_limit) × (n ≤ node_limit) }
    ensures { result ≡ spec.place_in_range n i o p }
{
    match p {
        Place::Idle | Place::Point => true,
        Place::Asking(j) => (i < j) & (j <= n),
        Place::Halting(j) => (1 <= j) & (j < i),
        Place::Announcing { still, now } | Place::Handing { still, now } => {
            predicates::is_set_of_others(n, i, still) & predicates::is_other(n, i, now)
        }
        Place::Checking(j) => predicates::is_other(n, i, j),
        Place::Contacting => !(o == i),
    }
}

fn rests_unless_runs(c: Node) -> bool
    ensures { result ≡ spec.rests_unless_runs c }
{
    c.runs | (predicates::is_down(c.status) & node::is_idle(c.place))
}

#[tactic(auto, unfolding(bully_model::specs::Range::node_in_range))]
fn node_in_range(n: u8, i: u8, c: Node) -> bool
    requires { (1 ≤ i) × (i ≤ node_limit) × (n ≤ node_limit) }
    ensures { result ≡ spec.node_in_range n i c }
{
    (c.coordinator <= n)
        & (c.task.number <= predicates::TASK_END)
        & (c.halter <= n)
        & predicates::is_set_of_others(n, i, c.up)
        & rests_unless_runs(c)
        & place_in_range(n, i, c.coordinator, c.place)
}

pub fn in_range(t: Table) -> bool
    ensures { result ≡ in_range (view t) }
{
    let n = t.n;
    if predicates::wrong_count(16, n) {
        return false;
    }
    predicates::all_from_one(&t.nodes[..n as usize], |i, c| node_in_range(n, i, c))
}
