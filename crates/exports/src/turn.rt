// A turn of the driver (02, T-09) on bytes. What is answered, and what out then holds, is in specs/TurnBoundary.
ghost use Rattle.std.specs.Prelude.{◌≡◌};
ghost use Rattle.exports.specs.TurnBoundary.{behind_table, TurnExported};
ghost use Rattle.number_bytes.specs.Bytes.{written};
ghost use Rattle.table_bytes.specs.Bytes.{size};

use crate::answered;
use round::{Done, Place};

// Behind the bytes of a table stand those of the next place, sender and receiver, and one of what was done.
const SENDER_AT: usize = table_bytes::SIZE;

const RECEIVER_AT: usize = table_bytes::SIZE + 1;

const DONE_AT: usize = table_bytes::SIZE + 2;

const TURN_SIZE: usize = table_bytes::SIZE + 3;

// The place of the next turn and what was done, behind the room of a table.
fn put_behind(out: &mut [u8], place: Place, done: Done)
    ensures { out.new ≡ written out.old size (behind_table place done) }
{
    number_bytes::put(out, SENDER_AT, place.sender);
    number_bytes::put(out, RECEIVER_AT, place.receiver);
    number_bytes::put(out, DONE_AT, driver::done_number(done))
}

// A turn of the driver, which goes round the ordered pairs of nodes and chooses deliveries itself. table is a table in bytes, as for nevraspu_step. a and b are the place in the round,
// sender and receiver: of the first turn any pair, such as 1 and 2, and then the place that the last turn left. out needs the room of a table and of three bytes more, 4,439 bytes.
// The answer, in the order in which it is looked for:
//   255    out is too short
//   1      the table is not in range
//   7      a and b are no pair of the table's nodes, where it has more than one
//   0      accepted: out starts with the table after the turn, with 0 in all places that are no part of it; then come the place of the next turn, sender and receiver, and what was done:
//          0 nothing, 1 the oldest message from a to b was delivered, 2 it was lost
// With one node a turn does nothing, and the next place is a and b as they were. By any answer but 0 out is left as it was; what it has behind those bytes is never changed.
#[unsafe(no_mangle)]
pub extern "C" fn nevraspu_turn(table: &[u8], a: u8, b: u8, out: &mut [u8]) -> u8
    ensures { TurnExported table.now a b out.old out.new result }
{
    if out.len() < TURN_SIZE {
        return 255;
    }
    let p = Place {
        sender: a,
        receiver: b,
    };
    let o = driver::turn(table_bytes::decode(table), p);
    let r = predicates::answer_number(o.answer);
    if r != 0 {
        return r;
    }
    put_behind(out, o.place, o.done);
    answered(o.answer, o.table, out)
}
