// The waiting messages as numbers, so that they can be lent: message k stands in the four words from 4 * k on.
// What the words mean is in specs/Packed. Nothing is asked of them: any words are messages.
// kept: the words and how many messages wait are two parameters with a clause: the table of a run has the number, and the words are lent beside it.
#![tactic(auto)]

ghost use Rattle.std.specs.Prelude.{◌≡◌, ◌++◌, ◌+◌, ◌*◌, ◌%◌, ◌≤◌, ◌<◌, length, get_or, take, set};
ghost use Rattle.model.specs.State.{no_message};
ghost use Rattle.model.specs.Step.{actor, sent};
ghost use Rattle.machine.specs.Parts as parts;
ghost use Rattle.packed.specs.Packed as spec;

use model::{CallNo, Event, GroupNo, Message, Node, Reaction, Refusal, TaskNo};

pub const WORDS: usize = 256;

// What is ruled on an event: where its message stands, or how many wait; and the judgement, what its node does or the ground of the refusal.
// kept: `place` is no Option: it is where the words are closed up, and at the end nothing is.
#[derive(Clone, Copy)]
pub struct Ruling {
    pub place: usize,
    pub verdict: Result<Reaction, Refusal>,
}

// Words for a queue in which no message waits yet: which messages they hold does not matter.
pub fn none() -> [u32; WORDS]
    ensures { length result ≡ 256 }
{
    [0; WORDS]
}

// The first word of a message from a to b.
fn route(a: u8, b: u8) -> u32
    ensures { result ≡ spec.route a b }
{
    (b as u32) * 256 + a as u32
}

// The second: kind, yes and task.
fn content(m: Message) -> u32
    ensures { result ≡ spec.content m }
{
    ((m.task.number as u32) * 2 + m.yes as u32) * 256 + m.kind as u32
}

fn unpacked(a: u32, b: u32, c: u32, d: u32) -> Message
    ensures { result ≡ spec.unpacked a b c d }
{
    Message {
        sender: (a % 256) as u8,
        receiver: (a / 256 % 256) as u8,
        kind: (b % 256) as u8,
        call: CallNo { number: c },
        group: GroupNo { number: d },
        task: TaskNo {
            number: (b / 256 / 2 % 65536) as u16,
        },
        yes: b / 256 % 2 == 1,
    }
}

// The message at k, where that is one of the 64 places.
#[tactic(auto, using(crate::proofs::Laws::held_at))]
fn message_at(q: &[u32; WORDS], k: usize) -> Message
    ensures { result ≡ get_or (spec.held q.now) (k % 64) no_message }
{
    let i = k % 64 * 4;
    unpacked(q[i], q[i + 1], q[i + 2], q[i + 3])
}

// m at k.
fn put(q: &mut [u32; WORDS], k: usize, m: Message)
    requires { k < 64 }
    ensures { spec.held q.new ≡ set (spec.held q.old) k m }
{
    let i = k * 4;
    q[i] = route(m.sender, m.receiver);
    q[i + 1] = content(m);
    q[i + 2] = m.call.number;
    q[i + 3] = m.group.number;
}

// The message at k + 1 also at k.
fn move_down(q: &mut [u32; WORDS], k: usize)
    requires { k < 63 }
    ensures { spec.held q.new ≡ set (spec.held q.old) k (get_or (spec.held q.old) (k + 1) no_message) }
{
    let i = k * 4;
    let a = q[i + 4];
    let b = q[i + 5];
    let c = q[i + 6];
    let d = q[i + 7];
    q[i] = a;
    q[i + 1] = b;
    q[i + 2] = c;
    q[i + 3] = d;
}

// Whether the word is the first of a message that is found by the key.
fn is_route(word: u32, key: u32) -> bool
    ensures { result ≡ spec.is_route word key }
{
    word % 65536 == key
}

// Where the oldest message from a to b stands, or how many wait.
// kept: beside `find` and `place_for` of machine's queue, since a place has four words here and is a message there.
fn find(q: &[u32; WORDS], waiting: usize, a: u8, b: u8) -> usize
    requires { waiting ≤ 64 }
    ensures { (result ≡ parts.place a b (spec.queue q.now waiting)) × (result ≤ waiting) }
{
    let key = route(a, b);
    for i in 0..waiting {
        if is_route(q[i * 4], key) {
            return i;
        }
    }
    waiting
}

// Where the event's message stands; how many wait for an event that takes none.
#[tactic(auto, using(machine::proofs::Parts::place_taken, machine::proofs::Parts::place_none, model::proofs::Lists::first_length))]
fn place_for(q: &[u32; WORDS], waiting: u8, e: Event) -> usize
    requires { waiting ≤ 64 }
    ensures { (result ≡ parts.place_for (spec.queue q.now waiting) e) × (result ≤ waiting) }
{
    if machine::takes(e) {
        return find(q, waiting as usize, machine::sender(e), node_step::actor(e));
    }
    waiting as usize
}

// The place of the event's node among the records, where its number is one of a node.
pub fn seat(e: Event) -> usize
    ensures { (result ≡ (actor e + 15) % 16) × (result < 16) }
{
    machine::seat_of(node_step::actor(e))
}

// The judgement of an event on a node's record c, with its message as it stands in q; limit is how many messages may wait.
pub fn rule(q: &[u32; WORDS], n: u8, limit: u8, waiting: u8, c: Node, e: Event) -> Ruling
    requires { (waiting ≤ 64) × spec.Rulable q.now n waiting c e }
    ensures { spec.Ruled q.now n limit waiting c e result }
{
    let k = place_for(q, waiting, e);
    let m = message_at(q, k);
    Ruling {
        place: k,
        verdict: machine::judge(n, limit, waiting, k, c, m, e),
    }
}

// The messages behind k, up to the one at end, each a place down.
fn remove(q: &mut [u32; WORDS], k: usize, end: usize)
    requires { (k ≤ end) × (end < 64) }
    ensures { take end (spec.held q.new) ≡ parts.without k (take (end + 1) (spec.held q.old)) }
{
    for j in k..end {
        move_down(q, j);
    }
}

// What is sent behind the left messages: how many wait then.
fn append(q: &mut [u32; WORDS], left: u8, o: Option<Message>) -> u8
    requires { (left ≤ 64) × parts.Room o left }
    ensures { (result ≤ 64) × (take result (spec.held q.new) ≡ take left (spec.held q.old) ++ sent o) }
{
    match o {
        None => left,
        Some(m) => {
            put(q, left as usize, m);
            left + 1
        }
    }
}

// The message at k out, if k is below waiting, and what is sent in: how many wait then.
pub fn exchange(q: &mut [u32; WORDS], k: usize, waiting: u8, o: Option<Message>) -> u8
    requires { (waiting ≤ 64) × (k ≤ waiting) × parts.Room o (parts.left_of waiting k) }
    ensures { (length q.new ≡ 256) × (result ≤ 64) × (spec.queue q.new result ≡ parts.without k (spec.queue q.old waiting) ++ sent o) }
{
    if k < waiting as usize {
        let left = waiting - 1;
        remove(q, k, left as usize);
        return append(q, left, o);
    }
    append(q, waiting, o)
}
