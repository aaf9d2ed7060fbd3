// The controller in the cabinet (02, T-11), for Rust or C to link. It is a library of its own, so that a cabinet can have it without the machine over a table.
//   uint8_t nevraspu_controller_event(uint8_t n, uint8_t own, const uint8_t *record, size_t record_len, const uint8_t *field, size_t field_len, uint8_t *out, size_t out_len);
//   uint8_t nevraspu_controller_message(uint8_t n, uint8_t own, const uint8_t *record, size_t record_len, const uint8_t *message, size_t message_len, uint8_t *out, size_t out_len);
// Any numbers and bytes at all are answered. A caller has only to hand in pointers that are good for their lengths, out apart from the others.
// What is answered, and what out then holds, is in specs/Boundary; which fields are events of a controller, in specs/Field.
// That n of them over one queue do as the whole machine does (controller/specs/Claims) asks four things of whoever runs them: the record given out is kept, over a power cut too, and handed in next, and 29
// zero bytes are the first; where the queue has no room for the message given out, the record that was handed in is kept instead, as if the event had been refused; a message that is handed in is taken
// out of the queue only where it is answered by 0; and of the messages from one cabinet to another the oldest is handed in. They are (a) to (d) of include/nevraspu.h.
#![tactic(auto)]

ghost use Rattle.std.specs.Prelude.{◌≡◌, ◌≤◌, length};
ghost use Rattle.event_list.specs.Format.{next_at};
ghost use Rattle.number_bytes.specs.Bytes.{written};
ghost use Rattle.exports_controller.specs.Field.{local_of, event_in};
ghost use Rattle.exports_controller.specs.Boundary.{outcome_size, EventExported, MessageExported};
ghost use Rattle.exports_controller.specs.Parts.{read_as, packet_bytes, Answered};

use controller::{ControllerOutcome, LocalEvent};
use event_list::Stop;
use message_fields::Packet;
use model::Event;

// Where the outgoing message's length stands behind the record, where its bytes begin, and the room of all.
const LENGTH_AT: usize = 29;

const BYTES_AT: usize = 30;

const OUTCOME_SIZE: usize = 55;

// An event of a list as one of a controller: deliver and lose are none.
// kept: a function, as a TryFrom is no plainer: neither type is this crate's, so it could not be written here.
fn local_of(e: Event) -> Result<LocalEvent, Stop>
    ensures { result ≡ local_of e }
{
    match e {
        Event::Crash(i) => Ok(LocalEvent::Crash(i)),
        Event::Recover(i) => Ok(LocalEvent::Recover(i)),
        Event::Check(i) => Ok(LocalEvent::Check(i)),
        Event::Timeout(i) => Ok(LocalEvent::Timeout(i)),
        Event::Tick(i) => Ok(LocalEvent::Tick(i)),
        Event::Expire(i) => Ok(LocalEvent::Expire(i)),
        Event::Finish(i, t) => Ok(LocalEvent::Finish(i, t)),
        Event::Deliver(_, _) | Event::Lose(_, _) => Err(Stop::WrongTag),
    }
}

// The event of a field as the list reader has it.
fn read_event(field: &[u8]) -> Result<LocalEvent, Stop>
    ensures { result ≡ read_as (next_at field.now 0) }
{
    match event_list::event_at(field, 0)? {
        None => Err(Stop::CutShort),
        Some((e, _)) => local_of(e),
    }
}

// The event of the field at the start of these bytes; what comes behind it is not looked at. No bytes at all are a field cut short. A tag from deliver's on is looked at before the field's length.
fn event_in(field: &[u8]) -> Result<LocalEvent, Stop>
    ensures { result ≡ event_in field.now }
{
    match event_list::field_at(field, 0)? {
        None => Err(Stop::CutShort),
        Some(found) => {
            if 0x17 <= found.tag {
                return Err(Stop::WrongTag);
            }
            read_event(field)
        }
    }
}

// A packet behind the room of a record: its length and all its bytes.
fn put_packet(out: &mut [u8], p: Packet)
    ensures { out.new ≡ written out.old 29 (packet_bytes p) }
{
    number_bytes::put_one(out, LENGTH_AT, p.length);
    number_bytes::put_bytes(out, BYTES_AT, &p.bytes)
}

// The number of an outcome's answer; where it is 0, the record and the packet are written to out.
fn answered(o: ControllerOutcome, out: &mut [u8]) -> u8
    requires { outcome_size ≤ length out.old }
    ensures { Answered o out.old out.new result }
{
    let r = predicates::answer_number(o.answer);
    if r != 0 {
        return r;
    }
    table_bytes::put_node(out, 0, o.node);
    put_packet(out, o.packet);
    r
}

// One event other than deliver and lose, at controller own of n. record is its record in 29 bytes, in the form of crate table_bytes: any bytes are some record, in range or not. field is the event as
// a field of a list: tag, two-byte length, contents; bytes behind it are not looked at. out needs the room of 55 bytes. The answer, in the order in which it is looked for:
//   255               out is too short
//   3, 4, 5           no event of a controller: cut short, or no bytes at all; another tag, those of deliver and lose too; a length that is wrong for the tag
//   1                 n is not 1 to 16, own not 1 to n, or the record not in range for them
//   7, 8              the event's numbers: a cabinet that is not 1 to n, a task that no finish may give
//   21                the event is for another cabinet
//   9, 10, 18, 19     refused by the record
//   12, 13            refused at the end of a range
//   0                 accepted: out starts with the record after the event; then come a byte with the length of the outgoing message, 0 for none, and its bytes, with zeros up to 55
// By any answer but 0 out is left as it was; what it has behind its first 55 bytes is never changed.
#[unsafe(no_mangle)]
pub extern "C" fn nevraspu_controller_event(
    n: u8,
    own: u8,
    record: &[u8],
    field: &[u8],
    out: &mut [u8],
) -> u8
    ensures { EventExported n own «record».now field.now out.old out.new result }
{
    if out.len() < OUTCOME_SIZE {
        return 255;
    }
    match event_in(field) {
        Err(stop) => event_list::stop_number(stop),
        Ok(event) => {
            let o = controller::on_event(n, own, table_bytes::node_of(record), event);
            answered(o, out)
        }
    }
}

// One message that has reached controller own of n. message is its bytes, in the form of crate message_fields, and nothing behind them. The others are as above. The answer, in the order in which it
// is looked for:
//   255       out is too short
//   1         n, own or the record is out of range
//   20        the bytes are no message: not of that form, a number out of range, or the same sender and receiver
//   21        the message is for another cabinet
//   9         the cabinet is Down
//   12, 13    refused at the end of a range
//   0         accepted, as above
#[unsafe(no_mangle)]
pub extern "C" fn nevraspu_controller_message(
    n: u8,
    own: u8,
    record: &[u8],
    message: &[u8],
    out: &mut [u8],
) -> u8
    ensures { MessageExported n own «record».now message.now out.old out.new result }
{
    if out.len() < OUTCOME_SIZE {
        return 255;
    }
    let o = controller::on_message(n, own, table_bytes::node_of(record), message);
    answered(o, out)
}
