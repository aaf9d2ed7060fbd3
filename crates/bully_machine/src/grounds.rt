// The grounds of an event but 1: functions over one node and numbers.
ghost use Rattle.std.specs.Prelude.{◌≡◌};
ghost use Rattle.model.specs.Grounds.{first};
ghost use Rattle.bully_model.specs.Answers.{answer_number};
ghost use Rattle.bully_model.specs.Step as spec;
ghost use Rattle.bully_machine.specs.Parts as parts;

use crate::node;
use bully_model::{Answer, Event, Node, Place, Refusal};

pub fn actor(e: Event) -> u8
    ensures { result ≡ spec.actor e }
{
    match e {
        Event::Crash(i)
        | Event::Recover(i)
        | Event::Check(i)
        | Event::Timeout(i)
        | Event::GoOn(i)
        | Event::Finish(i, _) => i,
    }
}

// kept: beside that of node_step: the Events are two types, of two algorithms, and a trait for both would have one match for each.
fn wrong_task(e: Event) -> bool
    ensures { result ≡ spec.wrong_task e }
{
    match e {
        Event::Finish(_, t) => !predicates::is_given_task(t),
        _ => false,
    }
}

fn wrong_running(runs: bool, e: Event) -> bool
    ensures { result ≡ spec.wrong_running runs e }
{
    match e {
        Event::Recover(_) => runs,
        _ => !runs,
    }
}

fn wrong_place(p: Place, e: Event) -> bool
    ensures { result ≡ spec.wrong_place p e }
{
    match e {
        Event::Crash(_) | Event::Recover(_) => false,
        Event::Check(_) | Event::Timeout(_) => !node::is_idle(p),
        Event::GoOn(_) => !node::has_call(p),
        Event::Finish(_, _) => !node::is_point(p),
    }
}

// Grounds 7 and 8.
#[tactic(auto, unfolding(model::specs::Grounds::first, model::specs::Pick::pick))]
pub fn number_answer(n: u8, e: Event) -> Answer
    ensures { answer_number result ≡ first (parts.number_grounds n e) }
{
    if !predicates::is_node(n, actor(e)) {
        return Err(Refusal::WrongNumber);
    }
    if wrong_task(e) {
        return Err(Refusal::WrongTask);
    }
    Ok(())
}

// Grounds 9 and 10, by the record of the event's node.
#[tactic(auto, unfolding(model::specs::Grounds::first, model::specs::Pick::pick))]
pub fn state_answer(c: Node, e: Event) -> Answer
    ensures { answer_number result ≡ first (parts.state_grounds c e) }
{
    if wrong_running(c.runs, e) {
        return Err(Refusal::WrongRunning);
    }
    if wrong_place(c.place, e) {
        return Err(Refusal::WrongPlace);
    }
    Ok(())
}

// The number of an answer; 0 where the event is accepted.
// kept: a function with a name: `u8::from(answer)` would not say that the number is 01's, and 0 for Ok is no conversion.
pub fn answer_number(a: Answer) -> u8
    ensures { result ≡ answer_number a }
{
    match a {
        Ok(()) => 0,
        Err(Refusal::NotInRange) => 1,
        Err(Refusal::WrongNumber) => 7,
        Err(Refusal::WrongTask) => 8,
        Err(Refusal::WrongRunning) => 9,
        Err(Refusal::WrongPlace) => 10,
    }
}
