// The procedures of one node: the definitions of model's specs/Procedures as functions.
ghost use Rattle.std.specs.Prelude.{Some, ◌≡◌, ◌≤◌, ◌<◌};
ghost use Rattle.model.specs.Limits.{node_limit, counter_end, call_end};
ghost use Rattle.model.specs.Node.{next_call, calling, calls};
ghost use Rattle.model.specs.Procedures as spec;
ghost use Rattle.node_step.specs.Fits.{Fits};

use crate::{node, recovery};
use model::{Activity, CallNo, Mark, Message, Node, Reaction, Status, TaskNo};

pub fn reaction(c: Node, o: Option<Message>, k: Mark) -> Reaction
    ensures { result ≡ spec.reaction c o k }
{
    Reaction {
        node: c,
        outgoing: o,
        mark: k,
    }
}

pub fn stays(c: Node) -> Reaction
    ensures { result ≡ spec.stays c }
{
    Reaction {
        node: c,
        outgoing: None,
        mark: Mark::Plain,
    }
}

pub fn answers(i: u8, c: Node, m: Message, y: bool) -> Reaction
    ensures { result ≡ spec.answers i c m y }
{
    let call = m.call;
    reaction(c, Some(node::replies(i, m.sender, call, y)), Mark::Plain)
}

pub fn recovers(i: u8, c: Node) -> Reaction
    requires { (1 ≤ i) × (c.counter ≤ counter_end) }
    ensures { result ≡ spec.recovers i c }
{
    reaction(recovery::recovered(i, c), None, Mark::Recovers)
}

// Node `i` calls node `to`, with its group, in activity `a`.
pub fn call(i: u8, c: Node, a: Activity, kind: u8, to: u8, k: Mark) -> Reaction
    requires { c.last.number ≤ call_end }
    ensures { result ≡ spec.reaction (calling c a) (Some (calls i kind to (next_call c) c.group)) k }
{
    let m = node::calls(i, kind, to, node::next_call(c), c.group);
    reaction(node::calling(c, a), Some(m), k)
}

// Whom inviting, forwarding and handing take next: the highest of the set.
pub fn next_of(s: u16) -> u8
    requires { 0 < s }
    ensures { (result ≡ spec.next s) × (1 ≤ result) × (result ≤ node_limit) }
{
    node_set::highest(s)
}

#[tactic(auto, unfolding(model::specs::Procedures::invite_next, model::specs::Pick::pick))]
pub fn invite_next(i: u8, c: Node, k: Mark, found: u16, former: u16) -> Reaction
    requires { c.last.number ≤ call_end }
    ensures { result ≡ spec.invite_next i c k found former }
{
    if found != 0 {
        let now = next_of(found);
        let rest = node_set::remove(found, now);
        return call(
            i,
            c,
            Activity::Inviting {
                found: rest,
                former: former,
                now: now,
            },
            3,
            now,
            k,
        );
    }
    if former != 0 {
        let now = next_of(former);
        let rest = node_set::remove(former, now);
        return call(
            i,
            c,
            Activity::Inviting {
                found: 0,
                former: rest,
                now: now,
            },
            3,
            now,
            k,
        );
    }
    reaction(node::turned(c, Activity::Collecting), None, k)
}

#[tactic(auto, unfolding(model::specs::Procedures::merges, model::specs::Pick::pick))]
pub fn merges(i: u8, c: Node, found: u16) -> Reaction
    requires { Fits i c }
    ensures { result ≡ spec.merges i c found }
{
    // the members set aside are those before it
    let d = node::merged(i, c);
    invite_next(i, d, Mark::Merges, found, c.members)
}

#[tactic(auto, unfolding(model::specs::Procedures::hand_next, model::specs::Pick::pick))]
pub fn hand_next(i: u8, c: Node, rest: u16) -> Reaction
    requires { c.last.number ≤ call_end }
    ensures { result ≡ spec.hand_next i c rest }
{
    if rest == 0 {
        return stays(node::settled(c, Status::Normal));
    }
    let now = next_of(rest);
    let others = node_set::remove(rest, now);
    let m = node::readies(i, now, node::next_call(c), c.group, c.task);
    reaction(
        node::calling(
            c,
            Activity::Handing {
                rest: others,
                now: now,
            },
        ),
        Some(m),
        Mark::Plain,
    )
}

#[tactic(auto, unfolding(model::specs::Procedures::finishes, model::specs::Pick::pick))]
pub fn finishes(i: u8, c: Node, t: TaskNo) -> Reaction
    requires { c.last.number ≤ call_end }
    ensures { result ≡ spec.finishes i c t }
{
    hand_next(i, node::tasked(c, Status::Reorganization, t), c.members)
}

#[tactic(auto, unfolding(model::specs::Procedures::forward_next, model::specs::Pick::pick))]
pub fn forward_next(i: u8, c: Node, rest: u16, caller: u8, k: CallNo) -> Reaction
    requires { c.last.number ≤ call_end }
    ensures { result ≡ spec.forward_next i c rest caller k }
{
    if rest == 0 {
        return call(
            i,
            c,
            Activity::Accepting {
                caller: caller,
                call: k,
            },
            4,
            c.coordinator,
            Mark::Plain,
        );
    }
    let now = next_of(rest);
    let others = node_set::remove(rest, now);
    call(
        i,
        c,
        Activity::Forwarding {
            rest: others,
            now: now,
            caller: caller,
            call: k,
        },
        3,
        now,
        Mark::Plain,
    )
}

#[tactic(auto, unfolding(model::specs::Procedures::asked_all, model::specs::Pick::pick))]
pub fn asked_all(i: u8, c: Node, found: u16) -> Reaction
    requires { Fits i c }
    ensures { result ≡ spec.asked_all i c found }
{
    if found == 0 {
        return stays(node::turned(c, Activity::Idle));
    }
    let p = node_set::highest(found);
    if i < p {
        return stays(node::turned(
            c,
            Activity::Waiting {
                ticks: p - i,
                found: found,
            },
        ));
    }
    merges(i, c, found)
}

#[tactic(auto, unfolding(model::specs::Procedures::ask_at, model::specs::Pick::pick))]
pub fn ask_at(n: u8, i: u8, c: Node, j: u8, found: u16) -> Reaction
    requires { Fits i c }
    ensures { result ≡ spec.ask_at n i c j found }
{
    if j <= n {
        let m = node::asks(i, j, node::next_call(c));
        return reaction(
            node::calling(
                c,
                Activity::Asking {
                    asked: j,
                    found: found,
                },
            ),
            Some(m),
            Mark::Plain,
        );
    }
    asked_all(i, c, found)
}

#[tactic(auto, unfolding(model::specs::Procedures::ask_after, model::specs::Pick::pick))]
pub fn ask_after(n: u8, i: u8, c: Node, j: u8, found: u16) -> Reaction
    requires { Fits i c × (j ≤ node_limit) }
    ensures { result ≡ spec.ask_after n i c j found }
{
    if j + 1 == i {
        return ask_at(n, i, c, j + 2, found);
    }
    ask_at(n, i, c, j + 1, found)
}
