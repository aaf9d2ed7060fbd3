// The local step of one node: the definitions of model's specs/React as functions.
// Each other file has those of the file of model's specs that it is named after; but grounds goes by this crate's own specs/Grounds.
// kept: i and c, a node's number and its record, are two parameters, as in those definitions (`react n i c input`). One struct of both would be taken apart in each clause.
// kept: what a record, an activity or a message must meet stands in clauses (`Fits`, `FitsActivity`, `FitsSender`, the ends of counters and call numbers): any can be handed in with a table, and its range tells those that fit.
#![tactic(auto)]

mod grounds;
mod node;
mod procedures;
mod range;
mod recovery;
mod step;

ghost use Rattle.std.specs.Prelude.{◌≡◌, ◌≤◌, eqb};
ghost use Rattle.model.specs.Limits.{node_limit, counter_end, call_end};
ghost use Rattle.model.specs.Pick.{pick};
ghost use Rattle.model.specs.Node.{turned};
ghost use Rattle.model.specs.Procedures.{stays, recovers};
ghost use Rattle.model.specs.React as spec;
ghost use Rattle.node_set.specs.NodeSet.{with};
ghost use Rattle.node_step.specs.Fits.{Fits, FitsActivity, FitsInput, FitsSender};

pub use grounds::{node_answer, number_answer, own_end_answer};
use model::{Activity, GroupNo, Input, Mark, Message, Node, Reaction, Status};
pub use procedures::stays;
pub use range::{carries_group, message_in_range, node_in_range};
pub use recovery::recovery_records;
pub use step::{actor, is_sending};

fn leads(i: u8, c: Node) -> bool
    ensures { result ≡ spec.leads i c }
{
    predicates::is_normal(c.status) & (c.coordinator == i)
}

#[tactic(auto, unfolding(model::specs::React::checked, model::specs::Pick::pick))]
fn checked(n: u8, i: u8, c: Node) -> Reaction
    requires { Fits i c }
    ensures { result ≡ spec.checked n i c }
{
    if 1 < n {
        return procedures::ask_after(n, i, c, 0, 0);
    }
    procedures::stays(c)
}

#[tactic(auto, unfolding(model::specs::React::timed_out, model::specs::Pick::pick))]
fn timed_out(i: u8, c: Node) -> Reaction
    requires { c.last.number ≤ call_end }
    ensures { result ≡ spec.timed_out i c }
{
    if c.coordinator == i {
        return procedures::stays(c);
    }
    procedures::call(i, c, Activity::Contacting, 2, c.coordinator, Mark::Plain)
}

// A tick of a node that waits.
#[tactic(auto, unfolding(model::specs::React::ticked, model::specs::Pick::pick))]
fn waited(i: u8, c: Node, ticks: u8, found: u16) -> Reaction
    requires { Fits i c × (1 ≤ ticks) }
    ensures { result ≡ spec.ticked i c (Activity.Waiting ticks found) }
{
    if ticks == 1 {
        return procedures::merges(i, c, found);
    }
    procedures::stays(node::turned(
        c,
        Activity::Waiting {
            ticks: ticks - 1,
            found: found,
        },
    ))
}

#[tactic(auto, unfolding(model::specs::React::ticked))]
fn ticked(i: u8, c: Node, a: Activity) -> Reaction
    requires { Fits i c × FitsActivity a }
    ensures { result ≡ spec.ticked i c a }
{
    match a {
        Activity::Waiting { ticks, found } => waited(i, c, ticks, found),
        _ => procedures::stays(c),
    }
}

#[tactic(auto, unfolding(model::specs::React::expired))]
fn expired(n: u8, i: u8, c: Node, a: Activity) -> Reaction
    requires { Fits i c × FitsActivity a }
    ensures { result ≡ spec.expired n i c a }
{
    match a {
        Activity::Asking { asked, found } => procedures::ask_after(n, i, c, asked, found),
        Activity::Inviting { found, former, .. } => procedures::invite_next(
            i,
            c,
            Mark::Plain,
            found,
            former,
        ),
        Activity::Forwarding {
            rest,
            caller,
            call,
            ..
        } => procedures::forward_next(i, c, rest, caller, call),
        Activity::Handing { .. } | Activity::Contacting | Activity::Accepting { .. } => {
            procedures::recovers(i, c)
        }
        Activity::Idle | Activity::Waiting { .. } | Activity::Collecting => procedures::stays(c),
    }
}

// The set found, with the node asked where it answers yes.
#[tactic(auto, unfolding(model::specs::Pick::pick))]
fn found_with(found: u16, asked: u8, y: bool) -> u16
    requires { (1 ≤ asked) × (asked ≤ node_limit) }
    ensures { result ≡ pick y (with found asked) found }
{
    if y {
        node_set::insert(found, asked)
    } else {
        found
    }
}

// The coordinator that node `i` contacts has answered.
#[tactic(auto, unfolding(model::specs::Pick::pick))]
fn contacted(i: u8, c: Node, y: bool) -> Reaction
    requires { (1 ≤ i) × (c.counter ≤ counter_end) }
    ensures { result ≡ pick y (stays (turned c Activity.Idle)) (recovers i c) }
{
    if y {
        return procedures::stays(node::turned(c, Activity::Idle));
    }
    procedures::recovers(i, c)
}

#[tactic(auto, unfolding(model::specs::React::resumed))]
fn resumed(n: u8, i: u8, c: Node, y: bool, a: Activity) -> Reaction
    requires { Fits i c × FitsActivity a }
    ensures { result ≡ spec.resumed n i c y a }
{
    match a {
        Activity::Asking { asked, found } => procedures::ask_after(
            n,
            i,
            c,
            asked,
            found_with(found, asked, y),
        ),
        Activity::Inviting { found, former, .. } => procedures::invite_next(
            i,
            c,
            Mark::Plain,
            found,
            former,
        ),
        Activity::Handing { rest, .. } => procedures::hand_next(i, c, rest),
        Activity::Contacting => contacted(i, c, y),
        Activity::Forwarding {
            rest,
            caller,
            call,
            ..
        } => procedures::forward_next(i, c, rest, caller, call),
        Activity::Accepting { caller, call } => procedures::reaction(
            node::settled(c, Status::Reorganization),
            Some(node::replies(i, caller, call, true)),
            Mark::Plain,
        ),
        Activity::Idle | Activity::Waiting { .. } | Activity::Collecting => procedures::stays(c),
    }
}

#[tactic(auto, unfolding(model::specs::React::on_are_you_coordinator))]
fn on_are_you_coordinator(i: u8, c: Node, m: Message) -> Reaction
    ensures { result ≡ spec.on_are_you_coordinator i c m }
{
    procedures::answers(i, c, m, leads(i, c))
}

#[tactic(auto, unfolding(model::specs::React::on_are_you_there))]
fn on_are_you_there(i: u8, c: Node, m: Message) -> Reaction
    requires { FitsSender m }
    ensures { result ≡ spec.on_are_you_there i c m }
{
    let y = (c.group == m.group) & (c.coordinator == i) & node_set::contains(c.members, m.sender);
    procedures::answers(i, c, m, y)
}

// Whom an invited node forwards the invitation to.
#[tactic(auto, unfolding(model::specs::Pick::pick))]
fn forwards_to(i: u8, c: Node) -> u16
    ensures { result ≡ pick (eqb c.coordinator i) c.members 0 }
{
    if c.coordinator == i { c.members } else { 0 }
}

// Whether node `i`, with record `c`, only replies to an invitation to group `g`: the three conditions, in the papers' order.
fn only_replies(i: u8, c: Node, g: GroupNo) -> bool
    ensures { result ≡ spec.only_replies i c g }
{
    !predicates::is_normal(c.status) | (node::owner_of(g) == i) | (c.group == g)
}

#[tactic(auto, unfolding(model::specs::React::on_invitation, model::specs::Pick::pick))]
fn on_invitation(i: u8, c: Node, m: Message) -> Reaction
    requires { c.last.number ≤ call_end }
    ensures { result ≡ spec.on_invitation i c m }
{
    if only_replies(i, c, m.group) {
        return procedures::answers(i, c, m, true);
    }
    procedures::forward_next(
        i,
        node::invited(c, m.group),
        forwards_to(i, c),
        m.sender,
        m.call,
    )
}

#[tactic(auto, unfolding(model::specs::React::on_accept, model::specs::Pick::pick))]
fn on_accept(i: u8, c: Node, m: Message) -> Reaction
    requires { FitsSender m }
    ensures { result ≡ spec.on_accept i c m }
{
    if predicates::is_election(c.status) & (c.coordinator == i) & (c.group == m.group) {
        return procedures::answers(i, node::joined(c, m.sender), m, true);
    }
    procedures::answers(i, c, m, true)
}

#[tactic(auto, unfolding(model::specs::React::on_ready, model::specs::Pick::pick))]
fn on_ready(i: u8, c: Node, m: Message) -> Reaction
    ensures { result ≡ spec.on_ready i c m }
{
    if predicates::is_reorganization(c.status) & (c.group == m.group) {
        return procedures::answers(i, node::tasked(c, Status::Normal, m.task), m, true);
    }
    procedures::answers(i, c, m, true)
}

#[tactic(auto, unfolding(model::specs::React::on_reply, model::specs::Pick::pick))]
fn on_reply(n: u8, i: u8, c: Node, m: Message) -> Reaction
    requires { Fits i c }
    ensures { result ≡ spec.on_reply n i c m }
{
    if m.call == c.last {
        return resumed(n, i, c, m.yes, c.activity);
    }
    procedures::stays(c)
}

#[tactic(auto, unfolding(model::specs::React::received, model::specs::Pick::pick))]
fn received(n: u8, i: u8, c: Node, m: Message) -> Reaction
    requires { Fits i c × FitsSender m }
    ensures { result ≡ spec.received n i c m }
{
    match m.kind {
        1 => on_are_you_coordinator(i, c, m),
        2 => on_are_you_there(i, c, m),
        3 => on_invitation(i, c, m),
        4 => on_accept(i, c, m),
        5 => on_ready(i, c, m),
        6 => on_reply(n, i, c, m),
        0 | 7..=255 => procedures::stays(c),
    }
}

// What node `i` of `n`, with record `c`, does with `input`.
#[tactic(auto, unfolding(model::specs::React::react))]
pub fn react(n: u8, i: u8, c: Node, input: Input) -> Reaction
    requires { Fits i c × FitsInput input }
    ensures { result ≡ spec.react n i c input }
{
    match input {
        Input::Crash => procedures::stays(node::settled(c, Status::Down)),
        Input::Recover => procedures::recovers(i, c),
        Input::Check => checked(n, i, c),
        Input::Timeout => timed_out(i, c),
        Input::Tick => ticked(i, c, c.activity),
        Input::Expire => expired(n, i, c, c.activity),
        Input::Finish(t) => procedures::finishes(i, c, t),
        Input::Receive(m) => received(n, i, c, m),
    }
}
