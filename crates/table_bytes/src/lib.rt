// A table as 4,436 bytes, and the table of any bytes: a form in which any table at all, in range or not, can be handed in.
// Numbers have their high byte first.
//   table     n 1, 16 nodes of 29 bytes, 64 messages of 14 bytes, waiting 1, then sent, delivered and lost, each of 256 counts of 4 bytes, then limits
//   node      status 1, counter 4, group 4, coordinator 1, task 2, members 2, last 4, activity 11
//   activity  tag 1, set 2, former 2, node 1, caller 1, call 4; what an activity does not have is 0
//             set is found or rest; node is asked, ticks or now
//   message   sender 1, receiver 1, kind 1, call 4, group 4, task 2, yes 1
//   counts    that from node a to node b is at place (a - 1) * 16 + (b - 1)
//   limits    nodes 1, messages 1
// Reading takes status modulo 4, tag modulo 9 (0 Idle .. 8 Accepting) and yes modulo 2; every other number as it stands, in range or not.
// What is read and written is in specs/Bytes.
#![tactic(auto)]

ghost use Rattle.std.specs.Prelude.{◌≡◌, ◌^◌, ◌≤◌};
ghost use Rattle.number_bytes.specs.Bytes.{bytes, written};
ghost use Rattle.number_bytes.specs.Sizes.{length_bytes};
ghost use Rattle.table_bytes.specs.Bytes as spec;
ghost use Rattle.table_bytes.specs.Sizes.{node_long, message_long};

use model::{Activity, CallNo, GroupNo, Limits, Message, Node, Table, TaskNo};
use number_bytes::{
    Form, four, from, one, put_four, put_many, put_one, put_two, read_many, status_number,
    status_of, two, yes_number,
};

// How long a table's bytes are, and those of eight records.
pub const SIZE: usize = 4436;

pub const RECORDS_SIZE: usize = 232;

// An activity with a place for each thing that one of them holds.
// kept: `tag` is a byte of 01's form, and the bytes read may hold any.
#[derive(Clone, Copy)]
struct Parts {
    tag: u8,
    set: u16,
    former: u16,
    node: u8,
    caller: u8,
    call: u32,
}

fn parts_with(tag: u8, set: u16, former: u16, node: u8, caller: u8, call: u32) -> Parts
    ensures { result ≡ spec.parts tag set former node caller call }
{
    Parts {
        tag,
        set,
        former,
        node,
        caller,
        call,
    }
}

// ── reading ──

#[tactic(auto, unfolding(crate::specs::Bytes::activity_of, model::specs::Pick::pick))]
fn activity_of(p: Parts) -> Activity
    ensures { result ≡ spec.activity_of p }
{
    let Parts {
        tag,
        set,
        former,
        node,
        caller,
        call: number,
    } = p;
    let call = CallNo { number };
    match tag % 9 {
        0 => Activity::Idle,
        1 => Activity::Asking {
            asked: node,
            found: set,
        },
        2 => Activity::Waiting {
            ticks: node,
            found: set,
        },
        3 => Activity::Inviting {
            found: set,
            former,
            now: node,
        },
        4 => Activity::Collecting,
        5 => Activity::Handing {
            rest: set,
            now: node,
        },
        6 => Activity::Contacting,
        7 => Activity::Forwarding {
            rest: set,
            now: node,
            caller,
            call,
        },
        _ => Activity::Accepting { caller, call },
    }
}

// The node whose record starts s, of any bytes: what they are too few for is 0.
#[tactic(auto, unfolding(crate::specs::Bytes::node_of))]
pub fn node_of(s: &[u8]) -> Node
    ensures { result ≡ spec.node_of s.now }
{
    let p = parts_with(
        one(s, 18),
        two(s, 19),
        two(s, 21),
        one(s, 23),
        one(s, 24),
        four(s, 25),
    );
    Node {
        status: status_of(one(s, 0)),
        counter: four(s, 1),
        group: GroupNo { number: four(s, 5) },
        coordinator: one(s, 9),
        task: TaskNo { number: two(s, 10) },
        members: two(s, 12),
        last: CallNo {
            number: four(s, 14),
        },
        activity: activity_of(p),
    }
}

// The message whose record starts s.
#[tactic(auto, unfolding(crate::specs::Bytes::message_of))]
fn message_of(s: &[u8]) -> Message
    ensures { result ≡ spec.message_of s.now }
{
    Message {
        sender: one(s, 0),
        receiver: one(s, 1),
        kind: one(s, 2),
        call: CallNo { number: four(s, 3) },
        group: GroupNo { number: four(s, 7) },
        task: TaskNo { number: two(s, 11) },
        yes: one(s, 13) % 2 == 1,
    }
}

// The limits that start s.
#[tactic(auto, unfolding(crate::specs::Bytes::limits_of))]
fn limits_of(s: &[u8]) -> Limits
    ensures { result ≡ spec.limits_of s.now }
{
    Limits {
        nodes: one(s, 0),
        messages: one(s, 1),
    }
}

// The table of any bytes. What a list is too short for is 0; what comes after 4,436 bytes is not looked at.
pub fn decode(bytes: &[u8]) -> Table
    ensures { result ≡ spec.decoded bytes.now }
{
    Table {
        n: one(bytes, 0),
        limits: limits_of(from(bytes, 4434)),
        nodes: read_many::<TableForm, _, _>(from(bytes, 1)),
        messages: read_many::<TableForm, _, _>(from(bytes, 465)),
        waiting: one(bytes, 1361),
        sent: read_many::<TableForm, _, _>(from(bytes, 1362)),
        delivered: read_many::<TableForm, _, _>(from(bytes, 2386)),
        lost: read_many::<TableForm, _, _>(from(bytes, 3410)),
    }
}

// ── writing: a byte past the end is not written ──

fn parts_of(a: Activity) -> Parts
    ensures { result ≡ spec.parts_of a }
{
    match a {
        Activity::Idle => parts_with(0, 0, 0, 0, 0, 0),
        Activity::Asking { asked, found } => parts_with(1, found, 0, asked, 0, 0),
        Activity::Waiting { ticks, found } => parts_with(2, found, 0, ticks, 0, 0),
        Activity::Inviting { found, former, now } => parts_with(3, found, former, now, 0, 0),
        Activity::Collecting => parts_with(4, 0, 0, 0, 0, 0),
        Activity::Handing { rest, now } => parts_with(5, rest, 0, now, 0, 0),
        Activity::Contacting => parts_with(6, 0, 0, 0, 0, 0),
        Activity::Forwarding {
            rest,
            now,
            caller,
            call,
        } => parts_with(7, rest, 0, now, caller, call.number),
        Activity::Accepting { caller, call } => parts_with(8, 0, 0, 0, caller, call.number),
    }
}

fn put_parts(out: &mut [u8], at: usize, p: Parts)
    requires { at ≤ 2 ^ 33 }
    ensures { out.new ≡ written out.old at (spec.parts_bytes p) }
{
    put_one(out, at, p.tag);
    put_two(out, at + 1, p.set);
    put_two(out, at + 3, p.former);
    put_one(out, at + 5, p.node);
    put_one(out, at + 6, p.caller);
    put_four(out, at + 7, p.call)
}

// The bytes of a node over those of out from a place on, as many as there is room for.
pub fn put_node(out: &mut [u8], at: usize, node: Node)
    requires { at ≤ 2 ^ 32 }
    ensures { out.new ≡ written out.old at (spec.node_bytes node) }
{
    put_one(out, at, status_number(node.status));
    put_four(out, at + 1, node.counter);
    put_four(out, at + 5, node.group.number);
    put_one(out, at + 9, node.coordinator);
    put_two(out, at + 10, node.task.number);
    put_two(out, at + 12, node.members);
    put_four(out, at + 14, node.last.number);
    put_parts(out, at + 18, parts_of(node.activity))
}

fn put_message(out: &mut [u8], at: usize, m: Message)
    requires { at ≤ 2 ^ 32 }
    ensures { out.new ≡ written out.old at (spec.message_bytes m) }
{
    put_one(out, at, m.sender);
    put_one(out, at + 1, m.receiver);
    put_one(out, at + 2, m.kind);
    put_four(out, at + 3, m.call.number);
    put_four(out, at + 7, m.group.number);
    put_two(out, at + 11, m.task.number);
    put_one(out, at + 13, yes_number(m.yes))
}

// ── what a table has many of ──

// The forms of nodes, messages and counts.
struct TableForm;

impl Form<Node> for TableForm {
    ghost SIZE = { 29 };

    ghost of_bytes = { spec.node_of };

    ghost bytes = { spec.node_bytes };

    const SIZE: usize = 29;

    fn read(s: &[u8]) -> Node {
        node_of(s)
    }

    fn put(out: &mut [u8], at: usize, x: Node) {
        put_node(out, at, x)
    }

    ghost long = { node_long };
}

impl Form<Message> for TableForm {
    ghost SIZE = { 14 };

    ghost of_bytes = { spec.message_of };

    ghost bytes = { spec.message_bytes };

    const SIZE: usize = 14;

    fn read(s: &[u8]) -> Message {
        message_of(s)
    }

    fn put(out: &mut [u8], at: usize, x: Message) {
        put_message(out, at, x)
    }

    ghost long = { message_long };
}

impl Form<u32> for TableForm {
    ghost SIZE = { 4 };

    ghost of_bytes = { spec.count_of };

    ghost bytes = { bytes 4 };

    const SIZE: usize = 4;

    fn read(s: &[u8]) -> u32 {
        four(s, 0)
    }

    fn put(out: &mut [u8], at: usize, x: u32) {
        put_four(out, at, x)
    }

    ghost long = { length_bytes 4 };
}

fn put_limits(out: &mut [u8], at: usize, limits: Limits)
    requires { at ≤ 5000 }
    ensures { out.new ≡ written out.old at (spec.limits_bytes limits) }
{
    put_one(out, at, limits.nodes);
    put_one(out, at + 1, limits.messages)
}

// The bytes of t over the start of out, and what is behind them stays; where out is shorter, as many as it has room for.
pub fn encode(t: Table, out: &mut [u8])
    ensures { spec.Stored t out.old out.new }
{
    put_one(out, 0, t.n);
    put_many::<TableForm, _>(out, 1, &t.nodes);
    put_many::<TableForm, _>(out, 465, &t.messages);
    put_one(out, 1361, t.waiting);
    put_many::<TableForm, _>(out, 1362, &t.sent);
    put_many::<TableForm, _>(out, 2386, &t.delivered);
    put_many::<TableForm, _>(out, 3410, &t.lost);
    put_limits(out, 4434, t.limits)
}

// The bytes of eight records, such as `machine::recovery` answers, one after another over the start of out, as `encode` writes those of a table.
pub fn encode_records(records: [Node; 8], out: &mut [u8])
    ensures { spec.RecordsStored records out.old out.new }
{
    put_many::<TableForm, _>(out, 0, &records)
}
