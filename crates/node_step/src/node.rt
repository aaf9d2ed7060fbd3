// One node: the definitions of model's specs/Node as functions.
ghost use Rattle.std.specs.Prelude.{◌≡◌, ◌+◌, ◌≤◌};
ghost use Rattle.model.specs.Limits.{node_limit, counter_end, call_end};
ghost use Rattle.model.specs.Node as spec;

use model::{Activity, CallNo, GroupNo, Message, Node, Status, TaskNo};

// kept: here and below a function for each definition of model's specs/Node, by its name; each is one `matches!`.
pub fn is_idle(a: Activity) -> bool
    ensures { result ≡ spec.is_idle a }
{
    matches!(a, Activity::Idle)
}

pub fn is_waiting(a: Activity) -> bool
    ensures { result ≡ spec.is_waiting a }
{
    matches!(a, Activity::Waiting { .. })
}

pub fn is_collecting(a: Activity) -> bool
    ensures { result ≡ spec.is_collecting a }
{
    matches!(a, Activity::Collecting)
}

pub fn has_open_call(a: Activity) -> bool
    ensures { result ≡ spec.has_open_call a }
{
    matches!(
        a,
        Activity::Asking { .. }
            | Activity::Inviting { .. }
            | Activity::Handing { .. }
            | Activity::Contacting
            | Activity::Forwarding { .. }
            | Activity::Accepting { .. }
    )
}

pub fn group_of(counter: u32, owner: u8) -> GroupNo
    requires { (1 ≤ owner) × (counter ≤ counter_end + 1) }
    ensures { result ≡ record { number = spec.group_of counter owner } }
{
    GroupNo {
        number: counter * 16 + (owner - 1) as u32,
    }
}

pub fn owner_of(g: GroupNo) -> u8
    ensures { result ≡ spec.owner_of g.number }
{
    (g.number % 16 + 1) as u8
}

pub fn next_call(c: Node) -> CallNo
    requires { c.last.number ≤ call_end }
    ensures { result ≡ spec.next_call c }
{
    CallNo {
        number: c.last.number + 1,
    }
}

pub fn turned(c: Node, a: Activity) -> Node
    ensures { result ≡ spec.turned c a }
{
    Node { activity: a, ..c }
}

pub fn calling(c: Node, a: Activity) -> Node
    requires { c.last.number ≤ call_end }
    ensures { result ≡ spec.calling c a }
{
    let last = next_call(c);
    Node {
        last: last,
        activity: a,
        ..c
    }
}

pub fn settled(c: Node, s: Status) -> Node
    ensures { result ≡ spec.settled c s }
{
    Node {
        status: s,
        activity: Activity::Idle, // "All else is kept": the counter too
        ..c
    }
}

pub fn tasked(c: Node, s: Status, t: TaskNo) -> Node
    ensures { result ≡ spec.tasked c s t }
{
    Node {
        status: s,
        task: t,
        ..c
    }
}

pub fn joined(c: Node, j: u8) -> Node
    requires { (1 ≤ j) × (j ≤ node_limit) }
    ensures { result ≡ spec.joined c j }
{
    let members = node_set::insert(c.members, j);
    Node {
        members: members,
        ..c
    }
}

pub fn merged(i: u8, c: Node) -> Node
    requires { (1 ≤ i) × (c.counter ≤ counter_end) }
    ensures { result ≡ spec.merged i c }
{
    let counter = c.counter + 1;
    let group = group_of(counter, i);
    Node {
        status: Status::Election,
        counter: counter,
        group: group,
        coordinator: i,
        members: 0,
        activity: Activity::Idle,
        ..c
    }
}

pub fn invited(c: Node, g: GroupNo) -> Node
    ensures { result ≡ spec.invited c g }
{
    let owner = owner_of(g);
    Node {
        status: Status::Election, // and not Normal: the task comes with Ready
        group: g,
        coordinator: owner,
        activity: Activity::Idle,
        ..c
    }
}

// kept: a function for each definition of a message, by its name; what they have in common is the struct.
pub fn asks(i: u8, r: u8, k: CallNo) -> Message
    ensures { result ≡ spec.asks i r k }
{
    Message {
        sender: i,
        receiver: r,
        kind: 1,
        call: k,
        group: GroupNo { number: 0 },
        task: TaskNo { number: 0 },
        yes: false,
    }
}

pub fn calls(i: u8, kind: u8, r: u8, k: CallNo, g: GroupNo) -> Message
    ensures { result ≡ spec.calls i kind r k g }
{
    Message {
        sender: i,
        receiver: r,
        kind: kind,
        call: k,
        group: g,
        task: TaskNo { number: 0 },
        yes: false,
    }
}

pub fn readies(i: u8, r: u8, k: CallNo, g: GroupNo, t: TaskNo) -> Message
    ensures { result ≡ spec.readies i r k g t }
{
    Message {
        sender: i,
        receiver: r,
        kind: 5,
        call: k,
        group: g,
        task: t,
        yes: false,
    }
}

pub fn replies(i: u8, r: u8, k: CallNo, y: bool) -> Message
    ensures { result ≡ spec.replies i r k y }
{
    Message {
        sender: i,
        receiver: r,
        kind: 6,
        call: k,
        group: GroupNo { number: 0 },
        task: TaskNo { number: 0 },
        yes: y,
    }
}
