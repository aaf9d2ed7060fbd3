// The types of the election machine. What they mean, and every rule over them, is in specs/.
// This crate has no functions but the derived equalities: `node_step` and `machine` hold the code.
#![tactic(auto)]

// "group number = counter × 16 + (owner − 1), or 0 for none"
// kept: 0 for none, here and in a node's record, as 01 has it: a table that is handed in may hold any number.
#[derive(Clone, Copy, PartialEq, Eq)]
pub struct GroupNo {
    pub number: u32,
}

// "task, 0 to 65,535, 0 for none"
#[derive(Clone, Copy, PartialEq, Eq)]
pub struct TaskNo {
    pub number: u16,
}

// "last call number, 0 to 16,777,215"
#[derive(Clone, Copy, PartialEq, Eq)]
pub struct CallNo {
    pub number: u32,
}

// "status: 0 Down, 1 Election, 2 Reorganization, 3 Normal"
#[derive(Clone, Copy, PartialEq, Eq)]
pub enum Status {
    Down,
    Election,
    Reorganization,
    Normal,
}

// "activity, with what it needs to go on". Sets are 16-bit masks, bit i - 1 for node i.
#[derive(Clone, Copy, PartialEq, Eq)]
pub enum Activity {
    Idle,
    // "cabinet asked, set found"
    Asking {
        asked: u8,
        found: u16,
    },
    // "ticks left 1 to 15, set found"
    Waiting {
        ticks: u8,
        found: u16,
    },
    // "whom still, in two sets, and whom now": those found, and the members set aside
    Inviting {
        found: u16,
        former: u16,
        now: u8,
    },
    Collecting,
    // "whom still, whom now"
    Handing {
        rest: u16,
        now: u8,
    },
    Contacting,
    // "whom still, whom now, caller and the number of its call"
    Forwarding {
        rest: u16,
        now: u8,
        caller: u8,
        call: CallNo,
    },
    // "caller and the number of its call"
    Accepting {
        caller: u8,
        call: CallNo,
    },
}

// One node (01: cabinet).
#[derive(Clone, Copy, PartialEq, Eq)]
pub struct Node {
    pub status: Status,
    pub counter: u32,
    pub group: GroupNo,
    pub coordinator: u8,
    pub task: TaskNo,
    pub members: u16,
    // the last call number
    pub last: CallNo,
    pub activity: Activity,
}

// "a sender, a receiver (another cabinet), a kind and a call number"; group, task and yes where the kind carries them.
#[derive(Clone, Copy, PartialEq, Eq)]
pub struct Message {
    pub sender: u8,
    pub receiver: u8,
    // kept a number: a table that is handed in may hold any here, and `message_in_range` refuses it
    pub kind: u8,
    pub call: CallNo,
    pub group: GroupNo,
    pub task: TaskNo,
    // kept beside the kind, as 01's bytes have it there
    pub yes: bool,
}

// T-08: the most nodes that a table may have, and the most messages that may wait in it. "its two limits are part of the table's starting data"
#[derive(Clone, Copy, PartialEq, Eq)]
pub struct Limits {
    pub nodes: u8,
    pub messages: u8,
}

// n nodes, the table's two limits, and the waiting messages in the order sent. Records past n and places past `waiting` are no part of 01's table.
// T-05: "for each ordered pair, how many messages were sent, delivered and lost", row by sender: a to b at (a - 1) * 16 + (b - 1).
// kept: `waiting` beside its places and three rows of counts, as the table's form in bytes, C's interface, has them.
#[derive(Clone, Copy)]
pub struct Table {
    pub n: u8,
    pub limits: Limits,
    pub nodes: [Node; 16],
    pub messages: [Message; 64],
    pub waiting: u8,
    pub sent: [u32; 256],
    pub delivered: [u32; 256],
    pub lost: [u32; 256],
}

// The nine events.
#[derive(Clone, Copy, PartialEq, Eq)]
pub enum Event {
    Crash(u8),
    Recover(u8),
    Check(u8),
    Timeout(u8),
    Tick(u8),
    Expire(u8),
    Finish(u8, TaskNo),
    Deliver(u8, u8),
    Lose(u8, u8),
}

// What one node is told: an event other than deliver and lose, or a message that reached it.
#[derive(Clone, Copy, PartialEq, Eq)]
pub enum Input {
    Crash,
    Recover,
    Check,
    Timeout,
    Tick,
    Expire,
    Finish(TaskNo),
    Receive(Message),
}

// What the history takes from a step: whether a group was formed in it, and how.
#[derive(Clone, Copy, PartialEq, Eq)]
pub enum Mark {
    Plain,
    Recovers,
    Merges,
}

// What one node does with an input.
#[derive(Clone, Copy)]
pub struct Reaction {
    pub node: Node,
    // "So an event sends at most one message."
    pub outgoing: Option<Message>,
    pub mark: Mark,
}

// Why the starting data of a table are refused: refusal 1 for limits that are none of T-08's two pairs, or refusal 6.
#[derive(Clone, Copy, PartialEq, Eq)]
pub enum StartRefusal {
    WrongLimits,
    WrongCount,
}

// What the starting data of a table are answered with.
pub type StartAnswer = Result<(), StartRefusal>;

// The grounds on which a step of the machine or of a controller (T-11) is refused; WrongMessage and OtherNode (20 and 21) are the controller's alone. The numbers of 01 and
// 02 are in specs/Answers.
#[derive(Clone, Copy, PartialEq, Eq)]
pub enum Refusal {
    NotInRange,
    WrongNumber,
    WrongTask,
    WrongMessage,
    OtherNode,
    WrongStatus,
    WrongActivity,
    NotCoordinator,
    NoMajority,
    NoMessage,
    CounterAtEnd,
    CallsAtEnd,
    QueueFull,
    SentAtEnd,
}

// What a step of the machine or of a controller answers: accepted, or the ground of its refusal.
pub type Answer = Result<(), Refusal>;

// The answer of a step, and the table after it; the table stands first, because behind one byte it is copied from an odd place, in more pieces.
// kept: no Result, since `Stepped` of machine says what table stands beside a refusal.
#[derive(Clone, Copy)]
pub struct Outcome {
    pub table: Table,
    pub answer: Answer,
}
