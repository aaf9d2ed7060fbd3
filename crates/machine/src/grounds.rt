// The judgement of an event by its grounds, and what its node does: functions over one node, one message and numbers. The grounds that n, the event's numbers,
// the node's record and what the node does decide are node_step's.
ghost use Rattle.std.specs.Prelude.{◌≡◌, true, ℕ, ◌+◌, ◌%◌, ◌-◌, ◌≤◌, ◌<◌};
ghost use Rattle.model.specs.Pick.{pick};
ghost use Rattle.model.specs.Answers.{answer_number};
ghost use Rattle.model.specs.Grounds.{first};
ghost use Rattle.model.specs.Step as spec;
ghost use Rattle.machine.specs.Parts as parts;
ghost use Rattle.node_step.specs.Fits.{Fits};

use model::{Answer, Event, Input, Message, Node, Reaction, Refusal};

pub fn takes(e: Event) -> bool
    ensures { result ≡ parts.takes e }
{
    matches!(e, Event::Deliver(_, _) | Event::Lose(_, _))
}

// kept: no Option, as `sender` of specs/Parts is a number, and it is asked only for an event that takes a message.
pub fn sender(e: Event) -> u8
    ensures { result ≡ parts.sender e }
{
    match e {
        Event::Deliver(a, _) | Event::Lose(a, _) => a,
        _ => 0,
    }
}

// Grounds 9, 10, 18, 19 and 11; found: a message for the event waits.
#[tactic(auto, unfolding(model::specs::Grounds::first, model::specs::Pick::pick))]
pub fn state_answer(n: u8, c: Node, e: Event, found: bool) -> Answer
    ensures { answer_number result ≡ first (parts.state_grounds n c e found) }
{
    node_step::node_answer(n, c, e)?;
    if takes(e) & !found {
        return Err(Refusal::NoMessage);
    }
    Ok(())
}

// Grounds 12 to 14; left: how many messages wait once the event's own is out, and limit: how many may.
#[tactic(auto, unfolding(model::specs::Grounds::first, model::specs::Pick::pick))]
pub fn end_answer(c: Node, r: Reaction, left: u8, limit: u8) -> Answer
    ensures { answer_number result ≡ first (parts.end_grounds c r left limit) }
{
    node_step::own_end_answer(c, r)?;
    if node_step::is_sending(r.outgoing) & (left == limit) {
        return Err(Refusal::QueueFull);
    }
    Ok(())
}

// Ground 17; count is of the pair of what is sent.
pub fn sent_at_end(o: Option<Message>, count: u32) -> bool
    ensures { result ≡ parts.sent_at_end o count }
{
    node_step::is_sending(o) & (count == 33554430)
}

// What the event's node is told; m is the message that a delivery acts on. A lose tells it nothing: `reacts_to` does not ask.
fn input_of(m: Message, e: Event) -> Input
    ensures { result ≡ parts.input_of m e }
{
    match e {
        Event::Crash(_) => Input::Crash,
        Event::Recover(_) => Input::Recover,
        Event::Check(_) => Input::Check,
        Event::Timeout(_) => Input::Timeout,
        Event::Tick(_) => Input::Tick,
        Event::Expire(_) => Input::Expire,
        Event::Finish(_, t) => Input::Finish(t),
        Event::Deliver(_, _) | Event::Lose(_, _) => Input::Receive(m),
    }
}

fn is_lose(e: Event) -> bool
    ensures { result ≡ spec.is_lose e }
{
    matches!(e, Event::Lose(_, _))
}

// What the event's node does; c is its record, and m the message that a delivery acts on.
#[tactic(auto, using(crate::proofs::Judged::reacts_lost, crate::proofs::Judged::reacts_told, crate::proofs::Judged::told_fits))]
pub fn reacts_to(n: u8, c: Node, m: Message, e: Event) -> Reaction
    requires { Fits (spec.actor e) c × parts.FitsMessage m e }
    ensures { result ≡ parts.reacts_to n c m e }
{
    if is_lose(e) {
        return node_step::stays(c);
    }
    node_step::react(n, node_step::actor(e), c, input_of(m, e))
}

// How many messages wait once the event's own, if it is found, is out.
#[tactic(auto, unfolding(model::specs::Pick::pick))]
pub fn left_of(waiting: u8, found: bool) -> u8
    requires { found ≡ true → 1 ≤ waiting }
    ensures { result ≡ pick found (waiting - 1) waiting }
{
    if found {
        return waiting - 1;
    }
    waiting
}

// The place of node i's record, where i is 1 to 16; for other numbers one of the 16 all the same.
pub fn seat_of(i: u8) -> usize
    ensures { (result ≡ (i + 15) % 16) × (result < 16) }
{
    (i as usize + 15) % 16
}

// The place of the count from a to b, where both are 1 to 16; for other numbers one of the 256 all the same.
pub fn count_place(a: u8, b: u8) -> usize
    ensures { (result ≡ parts.place_of a b) × (result < 256) }
{
    seat_of(a) * 16 + seat_of(b)
}

// Where the count of what is sent stands, and by how much it is raised.
// kept: numbers, here and for what is moved, as `sent_place` and `sent_by` of specs/Parts are; where nothing is sent, 0 is added at 0, and no caller has to look first.
pub fn sent_place(o: Option<Message>) -> usize
    ensures { (result ≡ parts.sent_place o) × (result < 256) }
{
    match o {
        None => 0,
        Some(m) => count_place(m.sender, m.receiver),
    }
}

pub fn sent_by(o: Option<Message>) -> u32
    ensures { (result ≡ parts.sent_by o) × (result ≤ 1) }
{
    match o {
        None => 0,
        Some(_) => 1,
    }
}

// Where the counts of what the event delivers and loses stand, and by how much each is raised.
pub fn moved_place(e: Event) -> usize
    ensures { (result ≡ parts.moved_place e) × (result < 256) }
{
    count_place(sender(e), node_step::actor(e))
}

// kept: two functions, this and `lost_by`, for the two definitions by their names; one that takes the kind of event would match on it all the same.
pub fn delivered_by(e: Event) -> u32
    ensures { (result ≡ parts.delivered_by e) × (result ≤ 1) }
{
    match e {
        Event::Deliver(_, _) => 1,
        _ => 0,
    }
}

pub fn lost_by(e: Event) -> u32
    ensures { (result ≡ parts.lost_by e) × (result ≤ 1) }
{
    match e {
        Event::Lose(_, _) => 1,
        _ => 0,
    }
}

// The judgement of an event by all grounds but 1 and 17: what its node does, or the ground of the refusal. c is the node's record, m the message at place k of the waiting ones, and limit how many may wait.
pub fn judge(
    n: u8,
    limit: u8,
    waiting: u8,
    k: usize,
    c: Node,
    m: Message,
    e: Event,
) -> Result<Reaction, Refusal>
    requires { parts.Judging n waiting k c m e }
    ensures { parts.Judged n limit waiting k c m e result }
{
    let found = k < waiting as usize;
    node_step::number_answer(n, e)?;
    state_answer(n, c, e, found)?;
    let r = reacts_to(n, c, m, e);
    end_answer(c, r, left_of(waiting, found), limit)?;
    Ok(r)
}

// The same with ground 17 behind them; sent holds the counts of what was sent.
pub fn judge_all(
    n: u8,
    limit: u8,
    waiting: u8,
    k: usize,
    c: Node,
    m: Message,
    e: Event,
    sent: &[u32; 256],
) -> Result<Reaction, Refusal>
    requires { parts.Judging n waiting k c m e }
    ensures { parts.JudgedAll n limit waiting k c m e sent.now result }
{
    let r = judge(n, limit, waiting, k, c, m, e)?;
    if sent_at_end(r.outgoing, sent[sent_place(r.outgoing)]) {
        return Err(Refusal::SentAtEnd);
    }
    Ok(r)
}
