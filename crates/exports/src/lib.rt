// The functions that Rust or C can link, on numbers and byte slices. A slice crosses as a pointer and a length:
//   uint8_t nevraspu_step(const uint8_t *table, size_t table_len, const uint8_t *field, size_t field_len, uint8_t *out, size_t out_len);
//   uint8_t nevraspu_recovery(const uint8_t *table, size_t table_len, uint8_t node, uint8_t *out, size_t out_len);
//   uint32_t nevraspu_fold(const uint8_t *list, size_t list_len);
//   uint8_t nevraspu_bully_step(const uint8_t *table, size_t table_len, const uint8_t *field, size_t field_len, uint8_t *out, size_t out_len);
//   uint8_t nevraspu_turn(const uint8_t *table, size_t table_len, uint8_t a, uint8_t b, uint8_t *out, size_t out_len);
// Any bytes at all are answered. A caller has only to hand in pointers that are good for their lengths, out apart from the others.
// What is answered, and what out then holds, is in specs/Boundary; nevraspu_bully_step is in bully.rt, and nevraspu_turn in turn.rt.
#![tactic(auto)]

mod bully;
mod turn;

ghost use Rattle.std.specs.Prelude.{◌≡◌, ◌≤◌, length};
ghost use Rattle.model.specs.State.{starting_node, no_message, first_of, view, table_of};
ghost use Rattle.event_list.specs.Format.{rest};
ghost use Rattle.table_bytes.specs.Bytes.{size};
ghost use Rattle.model.specs.Traffic.{accepted_from};
ghost use Rattle.exports.specs.Boundary.{StepExported, RecoveryExported, plus_accepted, accepted_in};
ghost use Rattle.exports.specs.Parts.{Answered};

pub use bully::nevraspu_bully_step;
use model::{Answer, Table};
pub use turn::nevraspu_turn;

// Writes `none` into each place from n on.
fn clear<T: Copy>(all: &mut [T], n: u8, none: T)
    requires copied { T.is_infallible none }
    requires same { (y : T) → T.is_clone none y → y ≡ none }
    ensures { all.new ≡ first_of (length all.old) none (first_of n none all.old) }
{
    let from = usize::from(n).min(all.len());
    all[from..].fill(none)
}

// The table with nothing in the places past its n records and its waiting messages, so that its bytes depend on what it means alone.
fn cleared(mut t: Table) -> Table
    ensures { result ≡ table_of (view t) }
{
    let n = t.n;
    let waiting = t.waiting;
    clear(&mut t.nodes, n, machine::starting_node());
    clear(&mut t.messages, waiting, predicates::no_message());
    t
}

// The number of an answer; where it is 0, the table is written to out, over just the bytes that it needs: so that the compiler knows their number and leaves out the test of each place.
fn answered(answer: Answer, t: Table, out: &mut [u8]) -> u8
    requires { size ≤ length out.old }
    ensures { Answered answer t out.old out.new result }
{
    let r = predicates::answer_number(answer);
    if r != 0 {
        return r;
    }
    table_bytes::encode(cleared(t), &mut out[..table_bytes::SIZE]);
    r
}

// One event on a table. table is the table in bytes, in the form of crate table_bytes: any bytes are some table, in range or not. field is the event as a field of
// a list: tag, two-byte length, contents; bytes behind it are not looked at. out needs the room of a table, 4,436 bytes. The answer:
//   0                  accepted: out starts with the table after the event, with 0 in all places that are no part of it
//   1                  the table is not in range, its limits, the last two bytes, included; this is looked at next
//   3, 4, 5            no event: cut short, or no bytes at all; a tag that is no event's; a length that is wrong for the tag
//   7 to 14, 17 to 19  the event is refused, by 01's number, T-05's, T-06's or T-10's
//   255                out is too short; this is looked at first
// By any answer but 0 out is left as it was; what it has behind the bytes of a table is never changed.
#[unsafe(no_mangle)]
pub extern "C" fn nevraspu_step(table: &[u8], field: &[u8], out: &mut [u8]) -> u8
    ensures { StepExported table.now field.now out.old out.new result }
{
    if out.len() < table_bytes::SIZE {
        return 255;
    }
    let t = table_bytes::decode(table);
    if !machine::in_range(t) {
        return 1;
    }
    match event_list::event_at(field, 0) {
        Ok(None) => 3,
        Err(stop) => event_list::stop_number(stop),
        Ok(Some((event, _))) => {
            let o = machine::advance(t, event);
            answered(o.answer, o.table, out)
        }
    }
}

// The records of a node of a table, one after each assignment of its recovery, as document 002 prints it (02, T-04). table is a table in bytes, as for nevraspu_step, and
// node any number. out needs the room of eight records, 232 bytes. The answer:
//   0              accepted: out starts with the eight records, in the 29 bytes of a node each; the last is the one that the event recover leaves in the table, and the
//                  others may be out of range
//   1, 7, 9, 12    refused, as the event recover is
//   255            out is too short; this is looked at first
// By any answer but 0 out is left as it was; what it has behind the bytes of eight records is never changed.
#[unsafe(no_mangle)]
pub extern "C" fn nevraspu_recovery(table: &[u8], node: u8, out: &mut [u8]) -> u8
    ensures { RecoveryExported table.now node out.old out.new result }
{
    if out.len() < table_bytes::RECORDS_SIZE {
        return 255;
    }
    let q = machine::recovery(table_bytes::decode(table), node);
    let r = predicates::answer_number(q.answer);
    if r != 0 {
        return r;
    }
    table_bytes::encode_records(q.records, out);
    r
}

// One more where the number is 0.
// kept: the answer's number, as `plus_accepted` of specs/Boundary takes it.
fn counted(count: u32, number: u8) -> u32
    requires { count ≤ 65536 }
    ensures { result ≡ plus_accepted count number }
{
    if number == 0 { count + 1 } else { count }
}

fn fold_from(list: &[u8], start: Table) -> u32
    requires { (4 ≤ length list.now) × (length list.now ≤ 65536) }
    ensures { result ≡ accepted_from (view start) (rest list.now 4).events }
{
    let mut t = start;
    let mut at: usize = 4;
    let mut count: u32 = 0;
    // kept: a loop over offsets, which `event_at` gives one by one
    while let Ok(Some((event, next))) = event_list::event_at(list, at) {
        let o = machine::step(t, event);
        count = counted(count, predicates::answer_number(o.answer));
        t = o.table;
        at = next;
    }
    count
}

// How many events of a list, up to its end or to where it stops, are accepted, each by the step with its check of the range. 0 where the whole list or its
// first field is refused.
#[unsafe(no_mangle)]
pub extern "C" fn nevraspu_fold(list: &[u8]) -> u32
    ensures { result ≡ accepted_in list.now }
{
    match event_list::first_of(list) {
        Err(_) => 0,
        Ok((n, limits)) => fold_from(list, machine::starting(n, limits).table),
    }
}
