// A table of the Bully machine (02, T-07) as 193 bytes, and the table of any bytes: a form in which any table at all, in range or not, can be handed in. And its
// event of a field, as 01's lists have them: tag, two-byte length, contents.
// Numbers have their high byte first.
//   table   n 1, 16 nodes of 12 bytes
//   node    runs 1, status 1, coordinator 1, task 2, last halter 1, Up 2, place 4
//   place   tag 1 (0 idle, 1 asking, 2 halting, 3 announcing, 4 the reorganization point, 5 handing, 6 checking, 7 contacting), node 1, still 2; what a place does not
//           have is 0
// Reading takes runs modulo 2, status modulo 4 and a place's tag modulo 8; every other number as it stands, in range or not.
// What is read and written is in specs/Bytes, what a field says in specs/Field.
#![tactic(auto)]

ghost use Rattle.std.specs.Prelude.{◌≡◌, ◌^◌, ◌≤◌};
ghost use Rattle.number_bytes.specs.Bytes.{written};
ghost use Rattle.bully_bytes.specs.Bytes as spec;
ghost use Rattle.bully_bytes.specs.Field.{event_in};
ghost use Rattle.bully_bytes.specs.Parts.{decoded_field};
ghost use Rattle.bully_bytes.specs.Sizes.{node_long};

use bully_model::{Event, Node, Place, Table};
use event_list::{Stop, field_at, sized, task_of};
use model::TaskNo;
use number_bytes::{
    Form, byte, from, one, put_many, put_one, put_two, read_many, status_number, status_of, two,
    yes_number,
};

// How long a table's bytes are.
pub const SIZE: usize = 193;

// A place with room for each thing that one of them holds.
// kept: `tag` is a byte of 01's form, and the bytes read may hold any.
#[derive(Clone, Copy)]
struct PlaceParts {
    tag: u8,
    node: u8,
    still: u16,
}

fn parts_with(tag: u8, node: u8, still: u16) -> PlaceParts
    ensures { result ≡ spec.parts tag node still }
{
    PlaceParts { tag, node, still }
}

// ── reading ──

#[tactic(auto, unfolding(crate::specs::Bytes::place_of, model::specs::Pick::pick))]
fn place_of(p: PlaceParts) -> Place
    ensures { result ≡ spec.place_of p }
{
    let PlaceParts { tag, node, still } = p;
    match tag % 8 {
        0 => Place::Idle,
        1 => Place::Asking(node),
        2 => Place::Halting(node),
        3 => Place::Announcing { still, now: node },
        4 => Place::Point,
        5 => Place::Handing { still, now: node },
        6 => Place::Checking(node),
        7..=255 => Place::Contacting,
    }
}

// The node whose record starts s.
#[tactic(auto, unfolding(crate::specs::Bytes::node_of))]
fn node_of(s: &[u8]) -> Node
    ensures { result ≡ spec.node_of s.now }
{
    let p = parts_with(one(s, 8), one(s, 9), two(s, 10));
    Node {
        runs: one(s, 0) % 2 == 1,
        status: status_of(one(s, 1)),
        coordinator: one(s, 2),
        task: TaskNo { number: two(s, 3) },
        halter: one(s, 5),
        up: two(s, 6),
        place: place_of(p),
    }
}

// The table of any bytes. What a list is too short for is 0; what comes after 193 bytes is not looked at.
#[tactic(auto, unfolding(crate::specs::Bytes::decoded))]
pub fn decode(bytes: &[u8]) -> Table
    ensures { result ≡ spec.decoded bytes.now }
{
    Table {
        n: one(bytes, 0),
        nodes: read_many::<NodeForm, _, _>(from(bytes, 1)),
    }
}

// ── writing: a byte past the end is not written ──

fn parts_of(a: Place) -> PlaceParts
    ensures { result ≡ spec.parts_of a }
{
    match a {
        Place::Idle => parts_with(0, 0, 0),
        Place::Asking(node) => parts_with(1, node, 0),
        Place::Halting(node) => parts_with(2, node, 0),
        Place::Announcing { still, now } => parts_with(3, now, still),
        Place::Point => parts_with(4, 0, 0),
        Place::Handing { still, now } => parts_with(5, now, still),
        Place::Checking(node) => parts_with(6, node, 0),
        Place::Contacting => parts_with(7, 0, 0),
    }
}

fn put_parts(out: &mut [u8], at: usize, p: PlaceParts)
    requires { at ≤ 2 ^ 33 }
    ensures { out.new ≡ written out.old at (spec.parts_bytes p) }
{
    put_one(out, at, p.tag);
    put_one(out, at + 1, p.node);
    put_two(out, at + 2, p.still)
}

fn put_node(out: &mut [u8], at: usize, node: Node)
    requires { at ≤ 2 ^ 32 }
    ensures { out.new ≡ written out.old at (spec.node_bytes node) }
{
    put_one(out, at, yes_number(node.runs));
    put_one(out, at + 1, status_number(node.status));
    put_one(out, at + 2, node.coordinator);
    put_two(out, at + 3, node.task.number);
    put_one(out, at + 5, node.halter);
    put_two(out, at + 6, node.up);
    put_parts(out, at + 8, parts_of(node.place))
}

// The form of nodes.
struct NodeForm;

impl Form<Node> for NodeForm {
    ghost SIZE = { 12 };

    ghost of_bytes = { spec.node_of };

    ghost bytes = { spec.node_bytes };

    const SIZE: usize = 12;

    fn read(s: &[u8]) -> Node {
        node_of(s)
    }

    fn put(out: &mut [u8], at: usize, x: Node) {
        put_node(out, at, x)
    }

    ghost long = { node_long };
}

// The bytes of t over the start of out, and what is behind them stays; where out is shorter, as many as it has room for.
pub fn encode(t: Table, out: &mut [u8])
    ensures { spec.Stored t out.old out.new }
{
    put_one(out, 0, t.n);
    put_many::<NodeForm, _>(out, 1, &t.nodes)
}

// ── the event of a field ──

// The event of a tag and its field's contents.
#[tactic(auto, unfolding(crate::specs::Parts::decoded_field, crate::specs::Field::event_of, crate::specs::Field::length_of, model::specs::Pick::pick))]
fn decode_field(tag: u8, contents: &[u8]) -> Result<Event, Stop>
    ensures { result ≡ decoded_field tag contents.now }
{
    let size = contents.len();
    match tag {
        0x10 => sized(size, 1, Event::Crash(byte(contents, 0))),
        0x11 => sized(size, 1, Event::Recover(byte(contents, 0))),
        0x12 => sized(size, 1, Event::Check(byte(contents, 0))),
        0x13 => sized(size, 1, Event::Timeout(byte(contents, 0))),
        0x16 => sized(
            size,
            3,
            Event::Finish(
                byte(contents, 0),
                task_of(byte(contents, 1), byte(contents, 2)),
            ),
        ),
        0x19 => sized(size, 1, Event::GoOn(byte(contents, 0))),
        0..=0x0f | 0x14..=0x15 | 0x17..=0x18 | 0x1a..=255 => Err(Stop::WrongTag),
    }
}

// The event of the field at the start of these bytes, or why it is none of this machine; what comes behind it is not looked at. No bytes at all are a field cut short.
pub fn event_in(field: &[u8]) -> Result<Event, Stop>
    ensures { result ≡ event_in field.now }
{
    match field_at(field, 0)? {
        None => Err(Stop::CutShort),
        Some(found) => decode_field(found.tag, &field[found.start..found.end]),
    }
}
