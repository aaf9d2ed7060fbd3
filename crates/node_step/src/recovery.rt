// Recovery as document 002 prints it, in Appendix II: the definitions of model's specs/Recovery as functions.
ghost use Rattle.std.specs.Prelude.{◌≡◌, ◌≤◌};
ghost use Rattle.model.specs.Limits.{counter_end};
ghost use Rattle.model.specs.Recovery as spec;

use crate::node;
use model::{Activity, GroupNo, Node, Status, TaskNo};

fn with_status(x: Node, s: Status) -> Node
    ensures { result ≡ spec.with_status x s }
{
    Node { status: s, ..x }
}

fn with_counter(x: Node, k: u32) -> Node
    ensures { result ≡ spec.with_counter x k }
{
    Node { counter: k, ..x }
}

fn with_group(x: Node, g: GroupNo) -> Node
    ensures { result ≡ spec.with_group x g }
{
    Node { group: g, ..x }
}

fn with_coordinator(x: Node, j: u8) -> Node
    ensures { result ≡ spec.with_coordinator x j }
{
    Node {
        coordinator: j,
        ..x
    }
}

fn with_members(x: Node, m: u16) -> Node
    ensures { result ≡ spec.with_members x m }
{
    Node { members: m, ..x }
}

fn with_task(x: Node, t: TaskNo) -> Node
    ensures { result ≡ spec.with_task x t }
{
    Node { task: t, ..x }
}

// The records of node `i`, which had the record `x`, after each assignment of PROCEDURE Recovery (i). Behind each stands what Appendix II has for it: s is the status, g the
// group, c the coordinator, Up the members, d the task.
pub fn recovery_records(i: u8, x: Node) -> [Node; 8]
    requires { (1 ≤ i) × (x.counter ≤ counter_end) }
    ensures { result ≡ spec.recovery_records i x }
{
    let election = with_status(x, Status::Election); // S(i)·s := "Election";
    // CALL STOP; done before the first assignment, in `recovered`: no assignment reads or sets the activity
    let counter = with_counter(election, election.counter + 1); // S(i)·counter := S(i)·counter + 1;
    let group = with_group(counter, node::group_of(counter.counter, i)); // S(i)·g := i CONCATENATED S(i)·counter;
    let coordinator = with_coordinator(group, i); // S(i)·c := i;
    let members = with_members(coordinator, 0); // S(i)·Up := { };
    let reorganization = with_status(members, Status::Reorganization); // S(i)·s := "Reorganization";
    let task = with_task(reorganization, TaskNo { number: i as u16 }); // <<A single node task description is computed and placed in S(i)·d.>>
    let normal = with_status(task, Status::Normal); // S(i)·s := "Normal";
    [
        election,
        counter,
        group,
        coordinator,
        members,
        reorganization,
        task,
        normal,
    ]
}

// What every recovery leaves: the last of the eight records.
pub fn recovered(i: u8, x: Node) -> Node
    requires { (1 ≤ i) × (x.counter ≤ counter_end) }
    ensures { result ≡ spec.recovered i x }
{
    let stopped = node::turned(x, Activity::Idle); // CALL STOP; 01: "nothing further of the procedure runs"
    let records = recovery_records(i, stopped);
    records[7]
}
