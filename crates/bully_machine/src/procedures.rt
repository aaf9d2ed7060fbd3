// The procedures that make calls: the definitions of bully_model's specs/Procedures as functions.
ghost use Rattle.std.specs.Prelude.{◌≡◌, true, ◌+◌, ◌≤◌};
ghost use Rattle.model.specs.Limits.{node_limit};
ghost use Rattle.model.specs.declared.Status.TheVariants as status;
ghost use Rattle.bully_model.specs.Node as node;
ghost use Rattle.bully_model.specs.Procedures as spec;

use crate::node::with_place;
use bully_model::{Node, Place};
use model::{Status, TaskNo};

// "[[S(i)·s := "Normal";]] END Election"
fn ended(c: Node) -> Node
    ensures { result ≡ node.with_place (node.with_status c status.Normal) Place.Idle }
{
    Node {
        status: Status::Normal,
        place: Place::Idle,
        ..c
    }
}

#[tactic(auto, unfolding(bully_model::specs::Procedures::hand_next, model::specs::Pick::pick))]
pub fn hand_next(c: Node, still: u16) -> Node
    ensures { result ≡ spec.hand_next c still }
{
    if still == 0 {
        return ended(c);
    }
    let now = node_set::highest(still);
    let rest = node_set::remove(still, now);
    with_place(
        c,
        Place::Handing {
            still: rest,
            now: now,
        },
    )
}

#[tactic(auto, unfolding(bully_model::specs::Procedures::announce_next, model::specs::Pick::pick))]
pub fn announce_next(c: Node, still: u16) -> Node
    ensures { result ≡ spec.announce_next c still }
{
    if still == 0 {
        return with_place(c, Place::Point);
    }
    let now = node_set::highest(still);
    let rest = node_set::remove(still, now);
    with_place(
        c,
        Place::Announcing {
            still: rest,
            now: now,
        },
    )
}

// What the election point and NewCoordinator assign.
pub fn led(c: Node, j: u8) -> Node
    ensures { result ≡ node.with_status (node.with_coordinator c j) status.Reorganization }
{
    Node {
        coordinator: j,
        status: Status::Reorganization,
        ..c
    }
}

#[tactic(auto, unfolding(bully_model::specs::Procedures::election_point))]
fn election_point(i: u8, c: Node) -> Node
    ensures { result ≡ spec.election_point i c }
{
    announce_next(led(c, i), c.up)
}

#[tactic(auto, unfolding(bully_model::specs::Procedures::halt_from, model::specs::Pick::pick))]
pub fn halt_from(i: u8, c: Node, j: u8) -> Node
    ensures { result ≡ spec.halt_from i c j }
{
    if j == 0 {
        return election_point(i, c);
    }
    with_place(c, Place::Halting(j))
}

// "[[CALL STOP; S(i)·s := "Election"; S(i)·h := i; S(i)·Up := { };]]"
fn stopped(i: u8, c: Node) -> Node
    ensures { result ≡ node.with_up (node.with_halter (node.with_status (node.with_place c Place.Idle) status.Election) i) 0 }
{
    Node {
        place: Place::Idle,
        status: Status::Election,
        halter: i,
        up: 0,
        ..c
    }
}

#[tactic(auto, unfolding(bully_model::specs::Procedures::halting_step))]
fn halting_step(i: u8, c: Node) -> Node
    requires { 1 ≤ i }
    ensures { result ≡ spec.halting_step i c }
{
    halt_from(i, stopped(i, c), i - 1)
}

#[tactic(auto, unfolding(bully_model::specs::Procedures::ask_from, model::specs::Pick::pick))]
pub fn ask_from(n: u8, i: u8, c: Node, j: u8) -> Node
    requires { 1 ≤ i }
    ensures { result ≡ spec.ask_from n i c j }
{
    if j <= n {
        return with_place(c, Place::Asking(j));
    }
    halting_step(i, c)
}

#[tactic(auto, unfolding(bully_model::specs::Procedures::election))]
pub fn election(n: u8, i: u8, c: Node) -> Node
    requires { (1 ≤ i) × (i ≤ node_limit) }
    ensures { result ≡ spec.election n i c }
{
    ask_from(n, i, c, i + 1)
}

fn tasked(c: Node, t: TaskNo) -> Node
    ensures { result ≡ node.with_task c t }
{
    Node { task: t, ..c }
}

#[tactic(auto, unfolding(bully_model::specs::Procedures::finish))]
pub fn finish(c: Node, t: TaskNo) -> Node
    ensures { result ≡ spec.finish c t }
{
    hand_next(tasked(c, t), c.up)
}

fn recovering(c: Node) -> Node
    ensures { result ≡ node.with_halter (node.with_runs c true) 0 }
{
    Node {
        runs: true,
        halter: 0,
        ..c
    }
}

#[tactic(auto, unfolding(bully_model::specs::Procedures::recovery))]
pub fn recovery(n: u8, i: u8, c: Node) -> Node
    requires { (1 ≤ i) × (i ≤ node_limit) }
    ensures { result ≡ spec.recovery n i c }
{
    election(n, i, recovering(c))
}

#[tactic(auto, unfolding(bully_model::specs::Procedures::check_at, model::specs::Pick::pick))]
fn check_at(n: u8, c: Node, j: u8) -> Node
    ensures { result ≡ spec.check_at n c j }
{
    if j <= n {
        return with_place(c, Place::Checking(j));
    }
    with_place(c, Place::Idle)
}

#[tactic(auto, unfolding(bully_model::specs::Procedures::check_from, model::specs::Pick::pick))]
pub fn check_from(n: u8, i: u8, c: Node, j: u8) -> Node
    requires { j ≤ node_limit + 1 }
    ensures { result ≡ spec.check_from n i c j }
{
    if j == i {
        return check_at(n, c, j + 1);
    }
    check_at(n, c, j)
}

#[tactic(auto, unfolding(bully_model::specs::Procedures::check, model::specs::Pick::pick))]
pub fn check(n: u8, i: u8, c: Node) -> Node
    ensures { result ≡ spec.check n i c }
{
    if predicates::is_normal(c.status) & (c.coordinator == i) {
        return check_from(n, i, c, 1);
    }
    c
}

#[tactic(auto, unfolding(bully_model::specs::Procedures::timeout, model::specs::Pick::pick))]
pub fn timeout(n: u8, i: u8, c: Node) -> Node
    requires { (1 ≤ i) × (i ≤ node_limit) }
    ensures { result ≡ spec.timeout n i c }
{
    if predicates::is_active(c.status) {
        if c.coordinator == i {
            return c;
        }
        return with_place(c, Place::Contacting);
    }
    election(n, i, c)
}

pub fn crashed(c: Node) -> Node
    ensures { result ≡ spec.crashed c }
{
    Node {
        runs: false,
        status: Status::Down,
        place: Place::Idle,
        ..c
    }
}
