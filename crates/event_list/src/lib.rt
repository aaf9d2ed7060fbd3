// The list reader: fields, the refusals that end a list (01's 2 to 6), and the event decoder.
// What a list means is in specs/Format.
#![tactic(auto)]

ghost use Rattle.std.specs.Prelude.{◌≡◌, ◌+◌, ◌≤◌, ◌<◌, length};
ghost use Rattle.event_list.specs.Format.{two_bytes, length_at, task_of, stop_number, nodes_of, first_of, field_at, next_at};
ghost use Rattle.event_list.specs.Parts.{sized, decoded, counted_in, first_in};

use model::{Event, Limits, TaskNo};
use number_bytes::byte;

// Why a list ends before its end. 01's numbers are given by `stop_number`.
#[derive(Clone, Copy)]
pub enum Stop {
    TooLong,
    CutShort,
    WrongTag,
    WrongLength,
    WrongCount,
}

// A field that is there whole: its contents are list[start..end].
// kept: `tag` is a byte of the list, which may be any, and `decode` refuses it.
#[derive(Clone, Copy)]
pub struct Field {
    pub tag: u8,
    pub start: usize,
    pub end: usize,
}

// "over 65,536 bytes"
const MAX_BYTES: usize = 65536;

// kept: a function with a name: `u8::from(stop)` would not say that the number is 01's.
pub fn stop_number(s: Stop) -> u8
    ensures { result ≡ stop_number s }
{
    match s {
        Stop::TooLong => 2,
        Stop::CutShort => 3,
        Stop::WrongTag => 4,
        Stop::WrongLength => 5,
        Stop::WrongCount => 6,
    }
}

// "high byte first"
#[tactic(auto, using(number_bytes::proofs::Numbers::two_is))]
fn two_bytes(high: u8, low: u8) -> u16
    ensures { result ≡ two_bytes high low }
{
    u16::from_be_bytes([high, low])
}

// The task of two bytes.
pub fn task_of(high: u8, low: u8) -> TaskNo
    ensures { result ≡ task_of high low }
{
    TaskNo {
        number: two_bytes(high, low),
    }
}

// The length that a field names, in its second and third byte.
fn length_at(list: &[u8], at: usize) -> usize
    requires { at + 3 ≤ length list.now }
    ensures { (result ≡ length_at list.now at) × (result < 65536) }
{
    two_bytes(list[at + 1], list[at + 2]) as usize
}

// The field whose tag stands at an offset, by the bytes that are left: none are the list's end, too few for a field a refusal.
#[tactic(auto, unfolding(crate::specs::Format::cut_short, crate::specs::Format::field_at, model::specs::Pick::pick))]
pub fn field_at(list: &[u8], at: usize) -> Result<Option<Field>, Stop>
    ensures { result ≡ field_at list.now at }
{
    if list.len() <= at {
        return Ok(None);
    }
    if list.len() - at < 3 {
        return Err(Stop::CutShort);
    }
    let count = length_at(list, at);
    let start = at + 3;
    if list.len() - start < count {
        return Err(Stop::CutShort);
    }
    Ok(Some(Field {
        tag: list[at],
        start,
        end: start + count,
    }))
}

// The value, where the contents it is read from are as long as their tag wants.
#[tactic(auto, unfolding(crate::specs::Parts::sized, model::specs::Pick::pick))]
pub fn sized<T: Copy>(size: usize, wanted: usize, value: T) -> Result<T, Stop>
    ensures { result ≡ sized size wanted value }
{
    if size == wanted {
        Ok(value)
    } else {
        Err(Stop::WrongLength)
    }
}

// The event of a tag and its field's contents.
#[tactic(auto, unfolding(crate::specs::Parts::decoded, crate::specs::Format::event_of, crate::specs::Format::length_of, model::specs::Pick::pick))]
fn decode(tag: u8, contents: &[u8]) -> Result<Event, Stop>
    ensures { result ≡ decoded tag contents.now }
{
    let size = contents.len();
    match tag {
        0x10 => sized(size, 1, Event::Crash(byte(contents, 0))),
        0x11 => sized(size, 1, Event::Recover(byte(contents, 0))),
        0x12 => sized(size, 1, Event::Check(byte(contents, 0))),
        0x13 => sized(size, 1, Event::Timeout(byte(contents, 0))),
        0x14 => sized(size, 1, Event::Tick(byte(contents, 0))),
        0x15 => sized(size, 1, Event::Expire(byte(contents, 0))),
        0x16 => sized(
            size,
            3,
            Event::Finish(
                byte(contents, 0),
                task_of(byte(contents, 1), byte(contents, 2)),
            ),
        ),
        0x17 => sized(
            size,
            2,
            Event::Deliver(byte(contents, 0), byte(contents, 1)),
        ),
        0x18 => sized(size, 2, Event::Lose(byte(contents, 0), byte(contents, 1))),
        0..=0x0f | 0x19..=255 => Err(Stop::WrongTag),
    }
}

// The event that stands at an offset past the first field, and where the next field starts. Past the end of the list that is its end.
pub fn event_at(list: &[u8], at: usize) -> Result<Option<(Event, usize)>, Stop>
    ensures { result ≡ next_at list.now at }
{
    match field_at(list, at)? {
        None => Ok(None),
        Some(field) => {
            let event = decode(field.tag, &list[field.start..field.end])?;
            Ok(Some((event, field.end)))
        }
    }
}

// "n outside 1 to 16", by the limit of nodes given
#[tactic(auto, unfolding(crate::specs::Format::nodes_of, model::specs::Pick::pick))]
fn nodes_of(limits: Limits, n: u8) -> Result<(u8, Limits), Stop>
    ensures { result ≡ nodes_of limits n }
{
    if predicates::wrong_count(limits.nodes, n) {
        return Err(Stop::WrongCount);
    }
    Ok((n, limits))
}

// The number of nodes of a first field's contents.
fn counted(limits: Limits, contents: &[u8]) -> Result<(u8, Limits), Stop>
    ensures { result ≡ counted_in 1 limits contents.now }
{
    let n = sized(contents.len(), 1, byte(contents, 0))?;
    nodes_of(limits, n)
}

// What the first field's tag and contents say: 0x01 is the tower's, 0x02 the stand's.
#[tactic(auto, unfolding(crate::specs::Parts::first_in, crate::specs::Parts::counted_in, crate::specs::Format::limits_of, crate::specs::Format::length_of, model::specs::Pick::pick))]
fn first_in(tag: u8, contents: &[u8]) -> Result<(u8, Limits), Stop>
    ensures { result ≡ first_in tag contents.now }
{
    match tag {
        0x01 => counted(predicates::tower(), contents),
        0x02 => counted(predicates::stand(), contents),
        0x00 | 0x03..=255 => Err(Stop::WrongTag),
    }
}

// What the whole list and its first field say: a refusal, or the number of nodes and the table's limits.
pub fn first_of(list: &[u8]) -> Result<(u8, Limits), Stop>
    ensures { result ≡ first_of list.now }
{
    if MAX_BYTES < list.len() {
        return Err(Stop::TooLong);
    }
    match field_at(list, 0)? {
        None => Err(Stop::CutShort),
        Some(field) => first_in(field.tag, &list[field.start..field.end]),
    }
}
