// "A table is in range when ..": of one node's record and of one message, the definitions of model's specs/Range as functions.
ghost use Rattle.std.specs.Prelude.{◌≡◌, ◌≤◌};
ghost use Rattle.model.specs.Limits.{node_limit};
ghost use Rattle.model.specs.Range as spec;

use crate::node;
use model::{Activity, CallNo, GroupNo, Message, Node, TaskNo};

// The ends of the ranges, as in model's specs/Limits.
pub const COUNTER_END: u32 = 1048575;

pub const CALL_END: u32 = 16777215;

pub const TICK_END: u8 = 15;

fn is_group(n: u8, g: GroupNo) -> bool
    ensures { result ≡ spec.is_group n g.number }
{
    (1 <= g.number / 16) & (g.number / 16 <= COUNTER_END) & (node::owner_of(g) <= n)
}

fn is_call(k: CallNo) -> bool
    ensures { result ≡ spec.is_call k.number }
{
    (1 <= k.number) & (k.number <= CALL_END)
}

#[tactic(auto, unfolding(model::specs::Range::activity_in_range))]
fn activity_in_range(n: u8, i: u8, g: GroupNo, t: TaskNo, a: Activity) -> bool
    requires { (1 ≤ i) × (i ≤ node_limit) × (n ≤ node_limit) }
    ensures { result ≡ spec.activity_in_range n i g.number t.number a }
{
    match a {
        Activity::Idle => true,
        Activity::Asking { asked, found } => predicates::is_other(n, i, asked)
            & predicates::is_set_of_others(n, i, found),
        Activity::Waiting { ticks, found } => (1 <= ticks)
            & (ticks <= TICK_END)
            & predicates::is_set_of_others(n, i, found),
        Activity::Inviting { found, former, now } => {
            predicates::is_set_of_others(n, i, found)
                & predicates::is_set_of_others(n, i, former)
                & predicates::is_other(n, i, now)
        }
        Activity::Collecting => true,
        Activity::Handing { rest, now } => predicates::is_set_of_others(n, i, rest)
            & predicates::is_other(n, i, now)
            & predicates::is_given_task(t),
        Activity::Contacting => true,
        Activity::Forwarding {
            rest,
            now,
            caller,
            call,
        } => {
            predicates::is_set_of_others(n, i, rest)
                & predicates::is_other(n, i, now)
                & predicates::is_other(n, i, caller)
                & is_call(call)
                & !(node::owner_of(g) == i)
        }
        Activity::Accepting { caller, call } => predicates::is_other(n, i, caller)
            & is_call(call)
            & !(node::owner_of(g) == i),
    }
}

fn is_group_or_none(n: u8, g: GroupNo) -> bool
    ensures { result ≡ spec.is_group_or_none n g.number }
{
    (g.number == 0) | is_group(n, g)
}

fn is_led(n: u8, down: bool, g: GroupNo, coordinator: u8) -> bool
    ensures { result ≡ spec.is_led n down g.number coordinator }
{
    down | (is_group(n, g) & (node::owner_of(g) == coordinator))
}

#[tactic(auto, unfolding(model::specs::Range::node_in_range))]
pub fn node_in_range(n: u8, i: u8, c: Node) -> bool
    requires { (1 ≤ i) × (i ≤ node_limit) × (n ≤ node_limit) }
    ensures { result ≡ spec.node_in_range n i c }
{
    let down = predicates::is_down(c.status);
    (c.counter <= COUNTER_END)
        & is_group_or_none(n, c.group)
        & (c.coordinator <= n)
        & (c.task.number <= predicates::TASK_END)
        & predicates::is_set_of_others(n, i, c.members)
        & (c.last.number <= CALL_END)
        & is_led(n, down, c.group, c.coordinator)
        & (!down | node::is_idle(c.activity))
        & activity_in_range(n, i, c.group, c.task, c.activity)
}

pub fn carries_group(kind: u8) -> bool
    ensures { result ≡ spec.carries_group kind }
{
    (2 <= kind) & (kind <= 5)
}

#[tactic(auto, unfolding(model::specs::Range::message_in_range))]
pub fn message_in_range(n: u8, m: Message) -> bool
    ensures { result ≡ spec.message_in_range n m }
{
    predicates::is_node(n, m.sender)
        & predicates::is_other(n, m.sender, m.receiver)
        & ((1 <= m.kind) & (m.kind <= 6))
        & is_call(m.call)
        & (!carries_group(m.kind) | is_group(n, m.group))
        & (!(m.kind == 5) | predicates::is_given_task(m.task))
}
