// The types of the Bully machine (02, T-07; Appendix I of document 002). What they mean, and every rule over them, is in specs/.
// This crate has no functions: `bully_machine` holds the code. Status and task are those of crate model.
#![tactic(auto)]

use model::{Status, TaskNo};

// 02: "the place in its procedure", with what it needs to go on. The others quoted are the appendix's words. Sets are 16-bit masks, bit i - 1 for node i.
#[derive(Clone, Copy)]
pub enum Place {
    Idle,
    // Election, "FOR j := i + 1, i + 2, …, n - 1, n": whom it asks now
    Asking(u8),
    // Election, "FOR j := i - 1, i - 2, …, 2, 1": whom it halts now
    Halting(u8),
    // Election, "FOR j IN S(i)·Up", NewCoordinator: whom still, whom now
    Announcing { still: u16, now: u8 },
    // 02's reorganization point: "The reorganization of the system occurs here."
    Point,
    // Election, "FOR j IN S(i)·Up", Ready: whom still, whom now
    Handing { still: u16, now: u8 },
    // Check, "FOR j := 1, 2, …, i - 1, i + 1, …, n": whom it asks now
    Checking(u8),
    // Timeout: it calls its coordinator
    Contacting,
}

// One node (02: cabinet). In the appendix S(i) has s for the status, c for the coordinator, d for the task, h for the last halter, and Up.
#[derive(Clone, Copy)]
pub struct Node {
    // 02: "whether the cabinet runs"; kept: no Option of the record, as a stopped node has one too
    pub runs: bool,
    pub status: Status,
    // 0 for none; kept, here and below, as 02 has it: a table that is handed in may hold any number
    pub coordinator: u8,
    pub task: TaskNo,
    // 02: "last halter (0 for none)"
    pub halter: u8,
    pub up: u16,
    pub place: Place,
}

// n nodes. Records past n are no part of the table.
#[derive(Clone, Copy)]
pub struct Table {
    pub n: u8,
    pub nodes: [Node; 16],
}

// 02: "events crash, recover, check, timeout, go on and finish with a task"
#[derive(Clone, Copy)]
pub enum Event {
    Crash(u8),
    Recover(u8),
    Check(u8),
    Timeout(u8),
    GoOn(u8),
    Finish(u8, TaskNo),
}

// The ground of a refusal. The numbers are in specs/Answers.
#[derive(Clone, Copy, PartialEq, Eq)]
pub enum Refusal {
    NotInRange,
    WrongNumber,
    WrongTask,
    WrongRunning,
    WrongPlace,
}

// What a step answers: accepted, or the ground of its refusal.
pub type Answer = Result<(), Refusal>;

// The answer of a step, and the table after it.
// kept: no Result, since `Stepped` of bully_machine says what table stands beside a refusal.
#[derive(Clone, Copy)]
pub struct Outcome {
    pub table: Table,
    pub answer: Answer,
}
