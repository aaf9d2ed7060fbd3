// Lists as text, both ways, a run step by step, a run that comes to rest, and all short lists, for Rust or C to link. That an out of the size named always has the room is
// `RoomAlways` of specs/Boundary.
#![tactic(auto)]

ghost use Rattle.std.specs.Prelude.{◌≡◌, ◌-◌, ◌≤◌, length};
ghost use Rattle.exports_text.specs.Boundary.{TextExported, TraceExported, RestExported, WrittenOut, ListExported, AldebaranExported, ShortListsExported};
ghost use Rattle.exports_text.specs.Window.{window};
ghost use Rattle.listing.specs.Printing.{HasRoom, Wrote};
ghost use Rattle.list_text.specs.Message.{message_text};

use list_parser::{Bad, LIST_LIMIT, MESSAGE_LIMIT};
use list_search::PIECE;
use list_tree::TEXT_SPACE;
use listing::TextBuffer;

//   uint64_t nevraspu_text_of_list(const uint8_t *list, size_t list_len, uint8_t *out, size_t out_len);
// A list, any bytes at all, as text, at the start of out. The answer:
//   a length      of the text, which stands there whole. No text has more than 278,540 bytes, so an out of that size always has the room
//   2^64 - 1      the text does not fit (refusal 15): its lines from the first on stand there, up to the one that has no room
// What is behind the last line written is left as it was. A caller has only to hand in pointers that are good for their lengths, out apart from list.
#[unsafe(no_mangle)]
pub extern "C" fn nevraspu_text_of_list(list: &[u8], out: &mut [u8]) -> u64
    ensures { TextExported list.now out.old out.new result }
{
    listing::put_length(list_printer::print(list, out))
}

//   uint64_t nevraspu_trace(const uint8_t *list, size_t list_len, uint8_t *out, size_t out_len);
// A list, any bytes at all, run step by step, at the start of out. The answer:
//   a length      of the text, which stands there whole. No text has more than 16,778,240 bytes, so an out of that size always has the room
//   2^64 - 1      the text does not fit (refusal 15): its pieces from the first on (the first line, the lines of each event, the table at the end) stand there,
//                 up to the one that has no room
// What is behind the last piece written is left as it was. A caller has only to hand in pointers that are good for their lengths, out apart from list.
#[unsafe(no_mangle)]
pub extern "C" fn nevraspu_trace(list: &[u8], out: &mut [u8]) -> u64
    ensures { TraceExported list.now out.old out.new result }
{
    listing::put_length(trace_list::print(list, out))
}

//   uint64_t nevraspu_rest(const uint8_t *list, size_t list_len, uint8_t *out, size_t out_len);
// T-13: a list, any bytes at all, run, and then turns of T-09's driver until no message waits; the text of it at the start of out. The answer:
//   a length      of the text, which stands there whole. No text has more than 279,163 bytes, so an out of that size always has the room
//   2^64 - 1      the text does not fit (refusal 15): its lines from the first on stand there, up to the one that has no room
// What is behind the last line written is left as it was. A caller has only to hand in pointers that are good for their lengths, out apart from list.
#[unsafe(no_mangle)]
pub extern "C" fn nevraspu_rest(list: &[u8], out: &mut [u8]) -> u64
    ensures { RestExported list.now out.old out.new result }
{
    listing::put_length(rest_list::print(list, out))
}

// kept: C's functions answer a number.
// Bytes at the start of out, if there is room, answered by base and how many they are; else by the largest number, and out stays as it was.
#[tactic(auto, unfolding(model::specs::Pick::pick))]
fn write_out(out: &mut [u8], bytes: &[u8], base: u64) -> u64
    requires { (length bytes.now ≤ 65536) × (base ≤ 4294967296) }
    ensures { WrittenOut bytes.now base out.old out.new result }
{
    let n = bytes.len();
    if out.len() < n {
        return u64::MAX;
    }
    out[..n].copy_from_slice(bytes);
    base + n as u64
}

// What is told of a bad text.
fn write_message(out: &mut [u8], bad: Bad) -> u64
    ensures { WrittenOut (message_text bad.place bad.expected) 4294967296 out.old out.new result × (length (message_text bad.place bad.expected) ≤ 128) }
{
    let mut message = [0; MESSAGE_LIMIT];
    let n = list_parser::put_message(&mut message, bad);
    write_out(out, &message[..n], 4294967296)
}

//   uint64_t nevraspu_list_of_text(const uint8_t *text, size_t text_len, uint8_t *out, size_t out_len);
// The list of a text, any bytes at all, at the start of out. The answer:
//   a length            of the list, at most 65,536 bytes
//   2^32 + a length     the text is bad: the length is that of the line that says where and what was expected, which stands at the start of out instead, at most 128 bytes
//   2^64 - 1            what is to be written does not fit: out is as it was. An out of 65,536 bytes always has the room
// What is behind what is written is left as it was. A caller has only to hand in pointers that are good for their lengths, out apart from text.
#[unsafe(no_mangle)]
pub extern "C" fn nevraspu_list_of_text(text: &[u8], out: &mut [u8]) -> u64
    ensures { ListExported text.now out.old out.new result }
{
    let mut list = [0; LIST_LIMIT];
    match list_parser::list_of_text(text, &mut list) {
        Ok(n) => write_out(out, &list[..n], 0),
        Err(bad) => write_message(out, bad),
    }
}

//   uint64_t nevraspu_aldebaran(const uint8_t *input, size_t input_len, uint8_t *out, size_t out_len);
// T-12: the same lists as those of `nevraspu_short_lists` below, of 0 to L events, as a transition system, in the Aldebaran form, at the start of out. The input is the two bytes n, from 1 to 3,
// and L, from 0 to 4; for any other bytes the text is the line `stopped 0 22`. The answer:
//   a length      of the text, which stands there whole. No text has more than 32,768 bytes, so an out of that size always has the room
//   2^64 - 1      the text does not fit: out is as it was
// What is behind the text is left as it was. A caller has only to hand in pointers that are good for their lengths, out apart from input.
#[unsafe(no_mangle)]
pub extern "C" fn nevraspu_aldebaran(input: &[u8], out: &mut [u8]) -> u64
    ensures { AldebaranExported input.now out.old out.new result }
{
    let mut text = [0; TEXT_SPACE];
    let n = list_tree::put_text(input, &mut text);
    write_out(out, &text[..n], 0)
}

// The bytes behind the first skip, as many as have room.
fn put_window(out: &mut TextBuffer, bytes: &[u8], skip: usize)
    requires { HasRoom out.old 0 }
    ensures { Wrote out.old (window bytes.now skip (length out.old.bytes.now - out.old.end)) out.new }
{
    let rest = &bytes[skip.min(bytes.len())..];
    let n = rest.len().min(out.bytes.len() - out.end);
    out.put(&rest[..n]);
}

//   uint64_t nevraspu_short_lists(const uint8_t *input, size_t input_len, uint64_t from, uint8_t *out, size_t out_len);
// T-01: the text of every list of exactly that many events that the machine accepts one after another from the tower's starting table, finish with task 100 only, from its byte `from` on, counted
// from 0, as pread(2) reads a file: at the start of out stand as many bytes of it as there are from there on and as have room. The input is the two bytes n, from 1 to 3, and how many events, from 0
// to 7; for any other bytes the text is the line `stopped 0 16`. The answer is how many bytes stand there: fewer than out has only at the text's end, and 0 where `from` is at its end or past it,
// and for an empty out. An answer as long as out leaves open whether more follows.
// Calls for the same input, the first from 0 and each other from where the one before ended, up to one that answers less than its out has, give the text, whole (`CallsMakeText`).
// Nothing is kept between two calls: each searches from the first list on, up to where out is full. So lend a large buffer; the longest text has 13,430,775 bytes.
// What is behind the bytes written is left as it was. A caller has only to hand in pointers that are good for their lengths, out apart from input.
#[unsafe(no_mangle)]
pub extern "C" fn nevraspu_short_lists(input: &[u8], from: u64, out: &mut [u8]) -> u64
    ensures { ShortListsExported input.now from out.old out.new result }
{
    let mut text = TextBuffer { bytes: out, end: 0 };
    let mut piece = [0; PIECE];
    let mut next = Some(list_search::begin(input));
    let mut skip = from as usize;
    while let Some(s) = next {
        let p = list_search::next_lines(s, &mut piece);
        put_window(&mut text, &piece[..p.written], skip);
        if text.end == text.bytes.len() {
            return text.end as u64;
        }
        skip = skip.saturating_sub(p.written);
        next = p.next;
    }
    text.end as u64
}
