// Whether two records are the same, by their fields as numbers.
ghost use Rattle.std.specs.Prelude.{◌≡◌};
ghost use Rattle.trace_text.specs.Words.{activity_numbers, node_numbers, same_node};

use model::{Activity, Node};

// An activity as five numbers.
fn activity_numbers(a: Activity) -> [u32; 5]
    ensures { result ≡ activity_numbers a }
{
    match a {
        Activity::Idle => [0, 0, 0, 0, 0],
        Activity::Asking { asked, found } => [1, asked as u32, found as u32, 0, 0],
        Activity::Waiting { ticks, found } => [2, ticks as u32, found as u32, 0, 0],
        Activity::Inviting { found, former, now } => [
            3,
            now as u32,
            found as u32,
            former as u32,
            0,
        ],
        Activity::Collecting => [4, 0, 0, 0, 0],
        Activity::Handing { rest, now } => [5, now as u32, rest as u32, 0, 0],
        Activity::Contacting => [6, 0, 0, 0, 0],
        Activity::Forwarding {
            rest,
            now,
            caller,
            call,
        } => [7, now as u32, rest as u32, caller as u32, call.number],
        Activity::Accepting { caller, call } => [8, caller as u32, call.number, 0, 0],
    }
}

// A record as twelve.
fn node_numbers(c: Node) -> [u32; 12]
    ensures { result ≡ node_numbers c }
{
    let group = c.group;
    let task = c.task;
    let last = c.last;
    let activity = c.activity;
    let a = activity_numbers(activity);
    [
        predicates::status_number(c.status) as u32,
        c.counter,
        group.number,
        c.coordinator as u32,
        task.number as u32,
        c.members as u32,
        last.number,
        a[0],
        a[1],
        a[2],
        a[3],
        a[4],
    ]
}

// Whether two records are the same.
// kept: their numbers, and not the derived equality, by which `same_node` is not defined: tried, the proof didn't close
pub fn same_node(c: Node, d: Node) -> bool
    ensures { result ≡ same_node c d }
{
    node_numbers(c) == node_numbers(d)
}
