// The Bully machine over a table, by value: the starting table, and the step for any table and any event (02, T-07).
#![tactic(auto)]

mod calls;
mod grounds;
mod node;
mod procedures;
mod range;

ghost use Rattle.std.specs.Prelude.{◌≡◌, ℕ, ◌≤◌, IfOk, IfErr, Err};
ghost use Rattle.model.specs.Limits.{node_limit};
ghost use Rattle.bully_model.specs.State.{starting_node, node_at, view};
ghost use Rattle.bully_model.specs.State as state;
ghost use Rattle.model.specs.Grounds.{first};
ghost use Rattle.bully_model.specs.Answers.{answer_number};
ghost use Rattle.bully_model.specs.Step as spec;
ghost use Rattle.bully_machine.specs.Stepped.{Stepped, starting_table, Begun};
ghost use Rattle.bully_machine.specs.Parts.{Passed, AllClear};

use bully_model::{Event, Node, Outcome, Place, Refusal, Table};
pub use grounds::answer_number;
use model::{StartAnswer, Status, TaskNo};
pub use range::in_range;

// What `starting` answers, and the table beside it.
// kept: no Result, since `Begun` says what table stands beside a refusal.
#[derive(Clone, Copy)]
pub struct Start {
    pub answer: StartAnswer,
    pub table: Table,
}

// The record of every node at the start; it also stands in places that hold no record.
pub fn starting_node() -> Node
    ensures { result ≡ starting_node }
{
    Node {
        runs: false,
        status: Status::Down,
        coordinator: 0,
        task: TaskNo { number: 0 },
        halter: 0,
        up: 0,
        place: Place::Idle,
    }
}

// The starting table of n nodes, whatever n is.
fn blank(n: u8) -> Table
    ensures { result ≡ starting_table n }
{
    let c = starting_node();
    Table {
        n: n,
        nodes: [c; 16],
    }
}

// The starting table of n nodes, and beside it refusal 6 where there is no such number of nodes.
#[tactic(auto, using(crate::proofs::Laws::start_is))]
pub fn starting(n: u8) -> Start
    ensures { Begun n result }
{
    Start {
        answer: predicates::start_answer(16, n),
        table: blank(n),
    }
}

// The record of node i; where i is 0, nobody's.
fn node_at(t: Table, i: u8) -> Node
    requires { (t.n ≤ node_limit) × (i ≤ t.n) }
    ensures { result ≡ node_at (view t) i }
{
    if i < 1 {
        return starting_node();
    }
    let at = (i - 1) as usize;
    t.nodes[at]
}

// The table with the record c for node i.
fn stored(t: Table, i: u8, c: Node) -> Table
    requires { (t.n ≤ node_limit) × (1 ≤ i) × (i ≤ t.n) }
    ensures { view result ≡ state.stored (view t) i c }
{
    let at = (i - 1) as usize;
    let mut next = t;
    next.nodes[at] = c;
    next
}

// Node i, whose record is c, makes its next call.
#[tactic(auto, unfolding(bully_model::specs::Step::go_on, bully_model::specs::Step::call, model::specs::Pick::pick))]
fn go_on(t: Table, i: u8, c: Node) -> Table
    requires { Passed t i c }
    ensures { view result ≡ spec.go_on (view t) i c c.place }
{
    let n = t.n;
    let place = c.place;
    let j = calls::callee(c, place);
    let d = node_at(t, j);
    if d.runs {
        let called = stored(t, j, calls::called(i, c, place, d));
        return stored(called, i, calls::answered(n, i, c, place, d));
    }
    stored(t, i, calls::timed_out(n, i, c, place))
}

// The table after an accepted event, whose node has the record c.
#[tactic(auto, unfolding(bully_model::specs::Step::effect))]
fn effect(t: Table, c: Node, e: Event) -> Table
    requires { Passed t (spec.actor e) c }
    ensures { view result ≡ spec.effect (view t) e }
{
    let n = t.n;
    match e {
        Event::Crash(i) => stored(t, i, procedures::crashed(c)),
        Event::Recover(i) => stored(t, i, procedures::recovery(n, i, c)),
        Event::Check(i) => stored(t, i, procedures::check(n, i, c)),
        Event::Timeout(i) => stored(t, i, procedures::timeout(n, i, c)),
        Event::GoOn(i) => go_on(t, i, c),
        Event::Finish(i, x) => stored(t, i, procedures::finish(c, x)),
    }
}

// The record of the event's node, or the first ground that is met.
fn judged(t: Table, e: Event) -> Result<Node, Refusal>
    ensures clear { IfOk result (λ c. AllClear t e c) }
    ensures met { IfErr result (λ r. answer_number (Err r) ≡ first (spec.grounds (view t) e)) }
{
    if !range::in_range(t) {
        return Err(Refusal::NotInRange);
    }
    grounds::number_answer(t.n, e)?;
    let c = node_at(t, grounds::actor(e));
    grounds::state_answer(c, e)?;
    Ok(c)
}

// One event on any table: refused, and the very same table; or accepted, and the table after it.
pub fn step(t: Table, e: Event) -> Outcome
    ensures { Stepped t e result }
{
    match judged(t, e) {
        Ok(c) => Outcome {
            table: effect(t, c, e),
            answer: Ok(()),
        },
        Err(r) => Outcome {
            table: t,
            answer: Err(r),
        },
    }
}
