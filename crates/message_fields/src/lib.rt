// A message on the cable (02, T-11), as tagged fields in the form of 01's lists: tag, two-byte length with the high byte first, contents.
//   0x20   sender 1, receiver 1, kind 1
//   0x21   call number 4
//   0x22   group 4          kinds 2 to 5
//   0x23   task 2           kind 5
//   0x24   1 yes, 0 no      kind 6
// Numbers have their high byte first. Each message has one form, and all other bytes are refused. What is read and written is in specs/Fields.
#![tactic(auto)]

ghost use Rattle.std.specs.Prelude.{◌≡◌, [], ◌≤◌, length};
ghost use Rattle.model.specs.Pick.{pick};
ghost use Rattle.model.specs.Range.{carries_group};
ghost use Rattle.number_bytes.specs.Bytes.{number, same_bytes, written};
ghost use Rattle.message_fields.specs.Fields as spec;
ghost use Rattle.message_fields.specs.Parts.{field_head, call_fields};

use model::{CallNo, GroupNo, Message, TaskNo};
use number_bytes::{four, one, put_four, put_one, put_two, two, yes_number};

// The bytes of a message, and how many they are; behind them stand zeros. No message: none.
// kept: an array with its length. nevraspu_controller_event gives all 25 bytes out, and nothing here may allocate.
#[derive(Clone, Copy)]
pub struct Packet {
    pub bytes: [u8; 25],
    pub length: u8,
}

// ── writing: a byte past the end is not written ──

// The tag of a field and the length of its contents.
fn put_head(out: &mut [u8], at: usize, tag: u8, size: u16)
    requires { at ≤ 100 }
    ensures { out.new ≡ written out.old at (field_head tag size) }
{
    put_one(out, at, tag);
    put_two(out, at + 1, size)
}

// The two fields that every message has.
fn put_call(out: &mut [u8], m: Message)
    ensures { out.new ≡ written out.old 0 (call_fields m) }
{
    put_head(out, 0, 0x20, 3);
    put_one(out, 3, m.sender);
    put_one(out, 4, m.receiver);
    put_one(out, 5, m.kind);
    put_head(out, 6, 0x21, 4);
    put_four(out, 9, m.call.number)
}

// The third field of kinds 2 to 5.
// kept: a function for each of 02's fields, here and below: their place, tag, width and number all differ.
fn put_group(out: &mut [u8], m: Message)
    ensures { out.new ≡ written out.old 13 (spec.group_field m) }
{
    put_head(out, 13, 0x22, 4);
    put_four(out, 16, m.group.number)
}

// The fourth field of kind 5.
fn put_task(out: &mut [u8], m: Message)
    ensures { out.new ≡ written out.old 20 (spec.task_field m) }
{
    put_head(out, 20, 0x23, 2);
    put_two(out, 23, m.task.number)
}

// The third field of kind 6.
fn put_yes(out: &mut [u8], m: Message)
    ensures { out.new ≡ written out.old 13 (spec.yes_field m) }
{
    put_head(out, 13, 0x24, 1);
    put_one(out, 16, yes_number(m.yes))
}

// The bytes of m over the start of out, as many as it has room for; what is behind them stays. The answer is how many they are.
pub fn encode(out: &mut [u8], m: Message) -> u8
    ensures { (out.new ≡ written out.old 0 (spec.fields m)) × (result ≡ length (spec.fields m)) }
{
    put_call(out, m);
    match m.kind {
        2..=4 => {
            put_group(out, m);
            20
        }
        5 => {
            put_group(out, m);
            put_task(out, m);
            25
        }
        6 => {
            put_yes(out, m);
            17
        }
        0..=1 | 7..=255 => 13,
    }
}

// The packet of a message.
pub fn packet_of(m: Message) -> Packet
    ensures { spec.Packed result (spec.fields m) }
{
    let mut bytes = [0; 25];
    let length = encode(&mut bytes, m);
    Packet { bytes, length }
}

// The packet of no message.
pub fn no_packet() -> Packet
    ensures { spec.Packed result [] }
{
    Packet {
        bytes: [0; 25],
        length: 0,
    }
}

// ── reading ──

// The number of the group, and of the task, where the kind carries it.
#[tactic(auto, unfolding(model::specs::Pick::pick))]
fn group_in(s: &[u8], kind: u8) -> u32
    ensures { result ≡ pick (carries_group kind) (number 4 s.now 16) 0 }
{
    if node_step::carries_group(kind) {
        four(s, 16)
    } else {
        0
    }
}

#[tactic(auto, unfolding(model::specs::Pick::pick))]
fn task_in(s: &[u8], kind: u8) -> u16
    ensures { result ≡ pick (spec.carries_task kind) (number 2 s.now 23) 0 }
{
    if kind == 5 { two(s, 23) } else { 0 }
}

// The message whose numbers stand at their places.
#[tactic(auto, unfolding(crate::specs::Fields::message_in))]
fn message_in(s: &[u8]) -> Message
    ensures { result ≡ spec.message_in s.now }
{
    let kind = one(s, 5);
    Message {
        sender: one(s, 3),
        receiver: one(s, 4),
        kind,
        call: CallNo { number: four(s, 9) },
        group: GroupNo {
            number: group_in(s, kind),
        },
        task: TaskNo {
            number: task_in(s, kind),
        },
        yes: (kind == 6) & (one(s, 16) % 2 == 1),
    }
}

// Whether these are the same bytes, as many and each the same.
fn is_same(s: &[u8], t: &[u8]) -> bool
    ensures { result ≡ same_bytes s.now t.now }
{
    s == t
}

// The message of bytes, among n nodes: the one whose numbers stand in them, where it is in range and they are just its bytes.
pub fn decode(n: u8, s: &[u8]) -> Option<Message>
    ensures { result ≡ spec.reading n s.now }
{
    let m = message_in(s);
    let p = packet_of(m);
    if !is_same(s, &p.bytes[..usize::from(p.length)]) {
        return None;
    }
    if !node_step::message_in_range(n, m) {
        return None;
    }
    Some(m)
}
