// The step of the Bully machine (02, T-07) on bytes. What is answered, and what out then holds, is in specs/BullyBoundary.
ghost use Rattle.std.specs.Prelude.{◌≡◌};
ghost use Rattle.bully_model.specs.State.{view, table_of};
ghost use Rattle.exports.specs.BullyBoundary.{BullyExported};
ghost use Rattle.exports.specs.Parts.{BullyAnswered};

use crate::clear;
use bully_model::{Answer, Table};

// The table with nothing in the places past its n records, so that its bytes depend on what it means alone.
fn cleared(mut t: Table) -> Table
    ensures { result ≡ table_of (view t) }
{
    let n = t.n;
    clear(&mut t.nodes, n, bully_machine::starting_node());
    t
}

// The number of an answer; where it is 0, the table is written to out.
// kept: beside crate::answered. The answer, the table, its form and the room differ; a closure for each would be as long as the function.
fn answered(answer: Answer, t: Table, out: &mut [u8]) -> u8
    ensures { BullyAnswered answer t out.old out.new result }
{
    let r = bully_machine::answer_number(answer);
    if r != 0 {
        return r;
    }
    bully_bytes::encode(cleared(t), out);
    r
}

// One event on a table of the Bully machine. table is the table in bytes, in the form of crate bully_bytes: any bytes are some table, in range or not. field is the
// event as a field: tag, two-byte length, contents; bytes behind it are not looked at. out needs the room of a table, 193 bytes. The answer, in the order in which it is looked for:
//   255         out is too short
//   3, 4, 5     no event: cut short, or no bytes at all; a tag that is no event's; a length that is wrong for the tag
//   1, 7 to 10  the event is refused, by 01's number; 1 is a table that is not in range
//   0           accepted: out starts with the table after the event, with 0 in all places that are no part of it
// By any answer but 0 out is left as it was; what it has behind the bytes of a table is never changed.
#[unsafe(no_mangle)]
pub extern "C" fn nevraspu_bully_step(table: &[u8], field: &[u8], out: &mut [u8]) -> u8
    ensures { BullyExported table.now field.now out.old out.new result }
{
    if out.len() < bully_bytes::SIZE {
        return 255;
    }
    match bully_bytes::event_in(field) {
        Err(stop) => event_list::stop_number(stop),
        Ok(event) => {
            let o = bully_machine::step(bully_bytes::decode(table), event);
            answered(o.answer, o.table, out)
        }
    }
}
