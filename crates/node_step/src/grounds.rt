// The grounds of an event that n, its numbers, its node's record and what the node does decide: 7 to 10, 12, 13, 18 and 19.
ghost use Rattle.std.specs.Prelude.{◌≡◌};
ghost use Rattle.model.specs.Answers.{answer_number};
ghost use Rattle.model.specs.Grounds.{first};
ghost use Rattle.model.specs.Step as spec;
ghost use Rattle.node_step.specs.Grounds.{number_grounds, node_grounds, own_end_grounds};

use crate::{leads, node, range, step};
use model::{Activity, Answer, Event, Node, Reaction, Refusal, Status};

fn wrong_number(n: u8, e: Event) -> bool
    ensures { result ≡ spec.wrong_number n e }
{
    match e {
        Event::Crash(i)
        | Event::Recover(i)
        | Event::Check(i)
        | Event::Timeout(i)
        | Event::Tick(i)
        | Event::Expire(i)
        | Event::Finish(i, _) => !predicates::is_node(n, i),
        Event::Deliver(a, b) | Event::Lose(a, b) => !predicates::is_pair(n, a, b),
    }
}

fn wrong_task(e: Event) -> bool
    ensures { result ≡ spec.wrong_task e }
{
    match e {
        Event::Finish(_, t) => !predicates::is_given_task(t),
        _ => false,
    }
}

fn wrong_status(s: Status, e: Event) -> bool
    ensures { result ≡ spec.wrong_status s e }
{
    let down = predicates::is_down(s);
    match e {
        Event::Recover(_) => !down,
        Event::Lose(_, _) => false,
        _ => down,
    }
}

fn wrong_activity(a: Activity, e: Event) -> bool
    ensures { result ≡ spec.wrong_activity a e }
{
    match e {
        Event::Check(_) | Event::Timeout(_) => !node::is_idle(a),
        Event::Tick(_) => !node::is_waiting(a),
        Event::Expire(_) => !node::has_open_call(a),
        Event::Finish(_, _) => !node::is_collecting(a),
        _ => false,
    }
}

fn not_coordinator(c: Node, e: Event) -> bool
    ensures { result ≡ spec.not_coordinator c e }
{
    match e {
        Event::Check(i) => !leads(i, c),
        _ => false,
    }
}

fn no_majority(n: u8, c: Node, e: Event) -> bool
    ensures { result ≡ spec.no_majority n c e }
{
    match e {
        Event::Finish(_, t) => {
            predicates::is_full_peal(t) & predicates::is_at_most_half(n, c.members)
        }
        _ => false,
    }
}

// Grounds 7 and 8.
#[tactic(auto, unfolding(model::specs::Grounds::first, model::specs::Pick::pick))]
pub fn number_answer(n: u8, e: Event) -> Answer
    ensures { answer_number result ≡ first (number_grounds n e) }
{
    if wrong_number(n, e) {
        return Err(Refusal::WrongNumber);
    }
    if wrong_task(e) {
        return Err(Refusal::WrongTask);
    }
    Ok(())
}

// Grounds 9, 10, 18 and 19; c is the record of the event's node.
#[tactic(auto, unfolding(model::specs::Grounds::first, model::specs::Pick::pick))]
pub fn node_answer(n: u8, c: Node, e: Event) -> Answer
    ensures { answer_number result ≡ first (node_grounds n c e) }
{
    if wrong_status(c.status, e) {
        return Err(Refusal::WrongStatus);
    }
    if wrong_activity(c.activity, e) {
        return Err(Refusal::WrongActivity);
    }
    if not_coordinator(c, e) {
        return Err(Refusal::NotCoordinator);
    }
    if no_majority(n, c, e) {
        return Err(Refusal::NoMajority);
    }
    Ok(())
}

// Grounds 12 and 13: the ends of the node's own numbers; r is what it does.
#[tactic(auto, unfolding(model::specs::Grounds::first, model::specs::Pick::pick))]
pub fn own_end_answer(c: Node, r: Reaction) -> Answer
    ensures { answer_number result ≡ first (own_end_grounds c r) }
{
    if step::forms(r.mark) & (c.counter == range::COUNTER_END) {
        return Err(Refusal::CounterAtEnd);
    }
    if step::is_calling(r.outgoing) & (c.last.number == range::CALL_END) {
        return Err(Refusal::CallsAtEnd);
    }
    Ok(())
}
