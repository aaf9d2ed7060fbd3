// The driver of T-09 over a table, by value: a turn of the round, for any table and any place.
#![tactic(auto)]

ghost use Rattle.std.specs.Prelude.{◌≡◌, true, ◌≤◌};
ghost use Rattle.model.specs.State.{view, waits};
ghost use Rattle.round.specs.Order as order;
ghost use Rattle.round.specs.Turn as spec;
ghost use Rattle.round.specs.Claims.{AtPair};
ghost use Rattle.driver.specs.Turned.{Turned};
ghost use Rattle.driver.specs.Parts.{outcome, Losing};

use model::{Answer, Event, Refusal, Table};
use round::{Done, Place, TurnOutcome};

fn pair(a: u8, b: u8) -> Place
    ensures { result ≡ order.pair a b }
{
    Place {
        sender: a,
        receiver: b,
    }
}

#[tactic(auto, unfolding(round::specs::Order::next_receiver, model::specs::Pick::pick))]
fn next_receiver(a: u8, b: u8) -> u8
    requires { b ≤ 16 }
    ensures { result ≡ order.next_receiver a b }
{
    if b + 1 == a {
        return b + 2;
    }
    b + 1
}

// The pair after p in the round of n nodes.
#[tactic(auto, unfolding(round::specs::Order::next_pair, model::specs::Pick::pick))]
fn next_pair(n: u8, p: Place) -> Place
    requires { (n ≤ 16) × (order.is_in_round n p ≡ true) }
    ensures { result ≡ order.next_pair n p }
{
    let a = p.sender;
    let c = next_receiver(a, p.receiver);
    if c <= n {
        return pair(a, c);
    }
    if a < n {
        return pair(a + 1, 1);
    }
    pair(1, 2)
}

fn outcome_of(table: Table, place: Place, done: Done, answer: Answer) -> TurnOutcome
    ensures { result ≡ outcome table place done answer }
{
    TurnOutcome {
        table: table,
        place: place,
        done: done,
        answer: answer,
    }
}

// Whether a message from a to b waits in a table in range: by T-05's sum, where more were sent than delivered and lost. So the messages need not be looked through.
fn some_wait(t: Table, a: u8, b: u8) -> bool
    requires { AtPair (view t) (order.pair a b) }
    ensures { result ≡ waits a b (view t).queue }
{
    let k = machine::count_place(a, b);
    t.delivered[k] + t.lost[k] < t.sent[k]
}

// The oldest message of the pair p is lost; next is the place of the next turn.
fn lose(t: Table, p: Place, next: Place) -> TurnOutcome
    requires { Losing t p next }
    ensures { Turned t p result }
{
    let o = machine::advance(t, Event::Lose(p.sender, p.receiver));
    outcome_of(o.table, next, Done::Lost, Ok(()))
}

// A turn at a pair of the round, on a table in range: "with no message it does nothing, with a Down receiver it loses the oldest, else it delivers it. A delivery that meets
// 12, 13 or 17 becomes a loss." To a Down receiver the delivery meets 9; else it is accepted, or meets 12, 13 or 17 (`TurnRules.no_other`). So each refusal here becomes a loss.
fn look(t: Table, p: Place) -> TurnOutcome
    requires { AtPair (view t) p }
    ensures { Turned t p result }
{
    let a = p.sender;
    let b = p.receiver;
    let next = next_pair(t.n, p);
    if !some_wait(t, a, b) {
        return outcome_of(t, next, Done::Nothing, Ok(()));
    }
    let o = machine::advance(t, Event::Deliver(a, b));
    // kept: tried with a `match` over the answer, and it misses a speed bar: the table of a delivery is copied once more
    if !predicates::is_accepted(o.answer) {
        return lose(t, p, next);
    }
    outcome_of(o.table, next, Done::Delivered, Ok(()))
}

// A turn on any table, at any place: refused, and the very same table and place; or accepted, and the table after it, the place of the next turn, and what was done.
pub fn turn(t: Table, p: Place) -> TurnOutcome
    ensures { Turned t p result }
{
    if !machine::in_range(t) {
        return outcome_of(t, p, Done::Nothing, Err(Refusal::NotInRange));
    }
    if t.n == 1 {
        return outcome_of(t, p, Done::Nothing, Ok(()));
    }
    if !predicates::is_pair(t.n, p.sender, p.receiver) {
        return outcome_of(t, p, Done::Nothing, Err(Refusal::WrongNumber));
    }
    look(t, p)
}

// The number of what was done: 0 nothing, 1 delivered, 2 lost.
// kept: a function with a name: `u8::from(done)` would not say which number is whose.
pub fn done_number(d: Done) -> u8
    ensures { result ≡ spec.done_number d }
{
    match d {
        Done::Nothing => 0,
        Done::Delivered => 1,
        Done::Lost => 2,
    }
}
