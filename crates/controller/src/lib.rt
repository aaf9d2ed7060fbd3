// The controller in the cabinet (02, T-11): one node's share of the machine. It takes n, its own number, its own record, and one event other than deliver and lose or the bytes of one message;
// it gives the answer, the record after it and at most one message, in bytes. Nothing else is read or kept, and no function here takes a table.
// What is answered is in specs/Controller and specs/Stepped; what n of them over one queue of messages do is in specs/Network.
#![tactic(auto)]

ghost use Rattle.std.specs.Prelude.{◌≡◌};
ghost use Rattle.message_fields.specs.Fields.{Packed};
ghost use Rattle.node_step.specs.Fits.{Fits, FitsInput, FitsSender};
ghost use Rattle.controller.specs.Controller as spec;
ghost use Rattle.controller.specs.Stepped.{OutcomeOf, ControllerStepped};
ghost use Rattle.controller.specs.Parts.{result_of, acted, received_by};

use message_fields::Packet;
use model::{Answer, Event, Input, Message, Node, Reaction, Refusal, TaskNo};

// The events other than deliver and lose, which are the queue's.
#[derive(Clone, Copy)]
pub enum LocalEvent {
    Crash(u8),
    Recover(u8),
    Check(u8),
    Timeout(u8),
    Tick(u8),
    Expire(u8),
    Finish(u8, TaskNo),
}

// The answer, the record after it, and the message that is sent; no bytes where none is.
// kept: no Result, since `OutcomeOf` says what record and bytes stand beside a refusal.
#[derive(Clone, Copy)]
pub struct ControllerOutcome {
    pub answer: Answer,
    pub node: Node,
    pub packet: Packet,
}

// The same event as one of a list.
impl From<LocalEvent> for Event {
    ghost from_gives = { λ e r. r ≡ spec.as_event e };

    fn from(e: LocalEvent) -> Event {
        match e {
            LocalEvent::Crash(i) => Event::Crash(i),
            LocalEvent::Recover(i) => Event::Recover(i),
            LocalEvent::Check(i) => Event::Check(i),
            LocalEvent::Timeout(i) => Event::Timeout(i),
            LocalEvent::Tick(i) => Event::Tick(i),
            LocalEvent::Expire(i) => Event::Expire(i),
            LocalEvent::Finish(i, t) => Event::Finish(i, t),
        }
    }
}

// What the node is told.
fn input_of(e: LocalEvent) -> Input
    ensures { result ≡ spec.input_of e }
{
    match e {
        LocalEvent::Crash(_) => Input::Crash,
        LocalEvent::Recover(_) => Input::Recover,
        LocalEvent::Check(_) => Input::Check,
        LocalEvent::Timeout(_) => Input::Timeout,
        LocalEvent::Tick(_) => Input::Tick,
        LocalEvent::Expire(_) => Input::Expire,
        LocalEvent::Finish(_, t) => Input::Finish(t),
    }
}

// Ground 1: n and the own number first, so that they fit what the record's test takes.
fn in_range(n: u8, own: u8, node: Node) -> bool
    ensures { result ≡ spec.in_range_for n own node }
{
    !predicates::wrong_count(16, n)
        && predicates::is_node(n, own)
        && node_step::node_in_range(n, own, node)
}

// The packet of what is sent.
fn packet_for(o: Option<Message>) -> Packet
    ensures { Packed result (spec.sent_bytes o) }
{
    match o {
        None => message_fields::no_packet(),
        Some(m) => message_fields::packet_of(m),
    }
}

// By the record: grounds 9, 10, 18 and 19, then what the node does, then 12 and 13.
fn act(n: u8, own: u8, node: Node, e: Event, input: Input) -> Result<Reaction, Refusal>
    requires { Fits own node × FitsInput input }
    ensures { result_of result ≡ acted n own node e input }
{
    node_step::node_answer(n, node, e)?;
    let r = node_step::react(n, own, node, input);
    node_step::own_end_answer(node, r)?;
    Ok(r)
}

fn judge_event(n: u8, own: u8, node: Node, e: LocalEvent) -> Result<Reaction, Refusal>
    ensures { result_of result ≡ spec.controller_step n own node (spec.event e) }
{
    if !in_range(n, own, node) {
        return Err(Refusal::NotInRange);
    }
    let whole = Event::from(e);
    node_step::number_answer(n, whole)?;
    if node_step::actor(whole) != own {
        return Err(Refusal::OtherNode);
    }
    act(n, own, node, whole, input_of(e))
}

// A message that is read: for another node, or acted on.
fn received(n: u8, own: u8, node: Node, m: Message) -> Result<Reaction, Refusal>
    requires { Fits own node × FitsSender m }
    ensures { result_of result ≡ received_by n own node m }
{
    if m.receiver != own {
        return Err(Refusal::OtherNode);
    }
    act(
        n,
        own,
        node,
        Event::Deliver(m.sender, m.receiver),
        Input::Receive(m),
    )
}

fn judge_message(n: u8, own: u8, node: Node, bytes: &[u8]) -> Result<Reaction, Refusal>
    ensures { result_of result ≡ spec.controller_step n own node (spec.message bytes.now) }
{
    if !in_range(n, own, node) {
        return Err(Refusal::NotInRange);
    }
    match message_fields::decode(n, bytes) {
        None => Err(Refusal::WrongMessage),
        Some(m) => received(n, own, node, m),
    }
}

// What a judgement comes to; a refusal leaves the record as it was, and sends nothing.
fn outcome_of(node: Node, judged: Result<Reaction, Refusal>) -> ControllerOutcome
    ensures { OutcomeOf node (result_of judged) result }
{
    match judged {
        Err(refusal) => ControllerOutcome {
            answer: Err(refusal),
            node: node,
            packet: message_fields::no_packet(),
        },
        Ok(r) => ControllerOutcome {
            answer: Ok(()),
            node: r.node,
            packet: packet_for(r.outgoing),
        },
    }
}

// An event of a list, other than deliver and lose.
pub fn on_event(n: u8, own: u8, node: Node, e: LocalEvent) -> ControllerOutcome
    ensures { ControllerStepped n own node (spec.event e) result }
{
    outcome_of(node, judge_event(n, own, node, e))
}

// The bytes of one message, and nothing behind them.
pub fn on_message(n: u8, own: u8, node: Node, bytes: &[u8]) -> ControllerOutcome
    ensures { ControllerStepped n own node (spec.message bytes.now) result }
{
    outcome_of(node, judge_message(n, own, node, bytes))
}
