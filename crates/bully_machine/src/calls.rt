// The calls: the definitions of bully_model's specs/Calls as functions. What they need of a place, so that no number overflows, is `FitsPlace` of specs/Parts.
ghost use Rattle.std.specs.Prelude.{◌≡◌, ◌-◌, ◌≤◌};
ghost use Rattle.model.specs.Limits.{node_limit};
ghost use Rattle.node_set.specs.NodeSet.{with};
ghost use Rattle.model.specs.declared.Status.TheVariants as status;
ghost use Rattle.bully_model.specs.Node as node;
ghost use Rattle.bully_model.specs.Procedures.{halt_from};
ghost use Rattle.bully_model.specs.Calls as spec;
ghost use Rattle.bully_machine.specs.Parts.{FitsPlace};

use crate::node::with_place;
use crate::procedures;
use bully_model::{Node, Place};
use model::{Status, TaskNo};

fn halt(c: Node, j: u8) -> Node
    ensures { result ≡ spec.halt c j }
{
    Node {
        status: Status::Election,
        halter: j,
        place: Place::Idle,
        ..c
    }
}

// What Ready assigns.
fn given(c: Node, x: TaskNo) -> Node
    ensures { result ≡ node.with_status (node.with_task c x) status.Normal }
{
    Node {
        task: x,
        status: Status::Normal,
        ..c
    }
}

#[tactic(auto, unfolding(bully_model::specs::Calls::new_coordinator, model::specs::Pick::pick))]
fn new_coordinator(c: Node, j: u8) -> Node
    ensures { result ≡ spec.new_coordinator c j }
{
    if (c.halter == j) & predicates::is_election(c.status) {
        return procedures::led(c, j);
    }
    c
}

#[tactic(auto, unfolding(bully_model::specs::Calls::ready, model::specs::Pick::pick))]
fn ready(c: Node, j: u8, x: TaskNo) -> Node
    ensures { result ≡ spec.ready c j x }
{
    if (c.coordinator == j) & predicates::is_reorganization(c.status) {
        return given(c, x);
    }
    c
}

// Whom a node calls at its place.
// kept: 0 for none, as `callee` of bully_model's specs/Calls has it: a coordinator may be 0 too, and a call to it times out.
pub fn callee(c: Node, p: Place) -> u8
    ensures { result ≡ spec.callee c p }
{
    match p {
        Place::Idle | Place::Point => 0,
        Place::Asking(j) | Place::Halting(j) | Place::Checking(j) => j,
        Place::Announcing { now, .. } | Place::Handing { now, .. } => now,
        Place::Contacting => c.coordinator,
    }
}

#[tactic(auto, unfolding(bully_model::specs::Calls::called))]
pub fn called(i: u8, c: Node, p: Place, d: Node) -> Node
    ensures { result ≡ spec.called i c p d }
{
    match p {
        Place::Halting(_) => halt(d, i),
        Place::Announcing { .. } => new_coordinator(d, i),
        Place::Handing { .. } => ready(d, i, c.task),
        _ => d,
    }
}

// "[[S(i)·Up := {j} UNION S(i)·Up;]]"
fn joined(c: Node, j: u8) -> Node
    requires { (1 ≤ j) × (j ≤ node_limit) }
    ensures { result ≡ node.with_up c (with c.up j) }
{
    Node {
        up: node_set::insert(c.up, j),
        ..c
    }
}

fn halted_one(i: u8, c: Node, j: u8) -> Node
    requires { (1 ≤ j) × (j ≤ node_limit) }
    ensures { result ≡ halt_from i (node.with_up c (with c.up j)) (j - 1) }
{
    procedures::halt_from(i, joined(c, j), j - 1)
}

#[tactic(auto, unfolding(bully_model::specs::Calls::answered, model::specs::Pick::pick))]
fn checked_one(n: u8, i: u8, c: Node, j: u8, d: Node) -> Node
    requires { (1 ≤ i) × (i ≤ node_limit) × (j ≤ node_limit) }
    ensures { result ≡ spec.answered n i c (Place.Checking j) d }
{
    if predicates::is_normal(d.status) {
        return procedures::check_from(n, i, c, j + 1);
    }
    procedures::election(n, i, c)
}

#[tactic(auto, unfolding(bully_model::specs::Calls::answered))]
pub fn answered(n: u8, i: u8, c: Node, p: Place, d: Node) -> Node
    requires { (1 ≤ i) × (i ≤ node_limit) × FitsPlace p }
    ensures { result ≡ spec.answered n i c p d }
{
    match p {
        Place::Idle | Place::Point => c,
        Place::Asking(_) | Place::Contacting => with_place(c, Place::Idle),
        Place::Halting(j) => halted_one(i, c, j),
        Place::Announcing { still, .. } => procedures::announce_next(c, still),
        Place::Handing { still, .. } => procedures::hand_next(c, still),
        Place::Checking(j) => checked_one(n, i, c, j, d),
    }
}

#[tactic(auto, unfolding(bully_model::specs::Calls::timed_out))]
pub fn timed_out(n: u8, i: u8, c: Node, p: Place) -> Node
    requires { (1 ≤ i) × (i ≤ node_limit) × FitsPlace p }
    ensures { result ≡ spec.timed_out n i c p }
{
    match p {
        Place::Idle | Place::Point => c,
        Place::Asking(j) => procedures::ask_from(n, i, c, j + 1),
        Place::Halting(j) => procedures::halt_from(i, c, j - 1),
        Place::Announcing { .. } | Place::Handing { .. } | Place::Contacting => {
            procedures::election(n, i, c)
        }
        Place::Checking(j) => procedures::check_from(n, i, c, j + 1),
    }
}
