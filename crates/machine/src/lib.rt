// The machine over a table, by value: the starting table, the step for any table and any event, and the records of a recovery.
#![tactic(auto)]

mod grounds;
mod queue;
mod range;

ghost use Rattle.std.specs.Prelude.{◌≡◌, true, ℕ, ◌≤◌, ◌<◌};
ghost use Rattle.model.specs.State.{starting_node, view, in_range};
ghost use Rattle.model.specs.Answers.{start_number};
ghost use Rattle.machine.specs.Stepped.{Stepped, starting_table, begun_number, Begun, RecoveryAnswered};

pub use grounds::{
    count_place, delivered_by, judge, lost_by, moved_place, seat_of, sender, sent_by, sent_place,
    takes,
};
use model::{
    Activity, Answer, CallNo, Event, GroupNo, Limits, Message, Node, Outcome, Refusal, StartAnswer,
    StartRefusal, Status, Table, TaskNo,
};
use predicates::no_message;
pub use predicates::starting_node;
pub use queue::place_for;
pub use range::in_range;

// What `starting` answers, and the table beside it.
// kept: no Result, since `Begun` says what table stands beside a refusal.
#[derive(Clone, Copy)]
pub struct Start {
    pub answer: StartAnswer,
    pub table: Table,
}

// What `recovery` answers: the answer to recover i, and the eight records beside it.
// kept: no Result, since `RecoveryAnswered` says what records stand beside a refusal.
#[derive(Clone, Copy)]
pub struct RecoveryAnswer {
    pub answer: Answer,
    pub records: [Node; 8],
}

// The starting table of n nodes with these limits, whatever they are.
fn blank(n: u8, limits: Limits) -> Table
    ensures { result ≡ starting_table n limits }
{
    Table {
        n: n,
        limits: limits,
        nodes: [starting_node(); 16],
        messages: [no_message(); 64],
        waiting: 0,
        sent: [0; 256],
        delivered: [0; 256],
        lost: [0; 256],
    }
}

// Refusal 1 where the limits are none of T-08's two pairs, so that the table is not in range, and refusal 6 where they don't allow n nodes.
#[tactic(auto, unfolding(model::specs::Pick::pick))]
fn begun_answer(n: u8, limits: Limits) -> StartAnswer
    ensures { start_number result ≡ begun_number n limits }
{
    if !predicates::is_tower_or_stand(limits) {
        return Err(StartRefusal::WrongLimits);
    }
    predicates::start_answer(limits.nodes, n)
}

// The starting table of n nodes with these limits, and beside it refusal 1 or 6, or none.
pub fn starting(n: u8, limits: Limits) -> Start
    ensures { Begun n limits result }
{
    Start {
        answer: begun_answer(n, limits),
        table: blank(n, limits),
    }
}

// One event on a table that is in range: for loops that keep the range, so that it is not checked at every event.
pub fn advance(t: Table, e: Event) -> Outcome
    requires { in_range (view t) ≡ true }
    ensures { Stepped t e result }
{
    let n = t.n;
    let limit = t.limits.messages;
    let waiting = t.waiting;
    let messages = t.messages;
    let k = queue::place_for(messages, waiting, e);
    let m = t.messages[k % 64];
    let at = grounds::seat_of(node_step::actor(e));
    let c = t.nodes[at];
    let r = match grounds::judge_all(n, limit, waiting, k, c, m, e, &t.sent) {
        Ok(r) => r,
        Err(refusal) => {
            return Outcome {
                answer: Err(refusal),
                table: t,
            };
        }
    };
    let left = grounds::left_of(waiting, k < waiting as usize);
    Outcome {
        answer: Ok(()),
        table: queue::stored(t, e, k, left, at, r),
    }
}

// One event on any table: refused, and the very same table; or accepted, and the table after it.
pub fn step(t: Table, e: Event) -> Outcome
    ensures { Stepped t e result }
{
    if !range::in_range(t) {
        return Outcome {
            answer: Err(Refusal::NotInRange),
            table: t,
        };
    }
    advance(t, e)
}

// The records of node i of any table, one after each assignment of its recovery, as document 002 prints it; or recover i's refusal, with eight starting records. The step
// itself gives the answer. CALL STOP is not needed: where recover i is accepted, the node is Down in a table in range, and so idle.
pub fn recovery(t: Table, i: u8) -> RecoveryAnswer
    ensures { RecoveryAnswered t i result }
{
    let o = step(t, Event::Recover(i));
    match o.answer {
        Err(refusal) => {
            let none = starting_node();
            RecoveryAnswer {
                answer: Err(refusal),
                records: [none; 8],
            }
        }
        Ok(()) => {
            let x = t.nodes[grounds::seat_of(i)];
            RecoveryAnswer {
                answer: Ok(()),
                records: node_step::recovery_records(i, x),
            }
        }
    }
}
