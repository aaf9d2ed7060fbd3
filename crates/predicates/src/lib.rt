// Definitions of model's specs as functions that several crates use: tests of a status, a node's number, a pair of nodes, a set of nodes, a task, a majority, a table's limits and
// an answer, the answer to a number of nodes, the numbers of an answer and a status, a test of each element, and what stands in empty places. The two pairs of limits (T-08) are named here, and nowhere else in the code.
#![tactic(auto)]

ghost use Rattle.std.specs.Prelude.{◌≡◌, ◌≤◌, ℕ, Bool, length};
ghost use Rattle.model.specs.Limits as limits;
ghost use Rattle.model.specs.Limits.{node_limit};
ghost use Rattle.model.specs.Node.{is_down, is_election, is_reorganization, is_normal, is_active};
ghost use Rattle.model.specs.Pick.{pick};
ghost use Rattle.model.specs.State.{wrong_count, every, starting_node, no_message};
ghost use Rattle.model.specs.Answers.{status_number, start_number, answer_number, is_accepted};
ghost use Rattle.model.specs.Range.{is_tower_or_stand, is_node, is_other, is_pair, is_set_of_others, is_given_task, is_full_peal, is_at_most_half};

use model::{
    Activity, Answer, CallNo, GroupNo, Limits, Message, Node, Refusal, StartAnswer, StartRefusal,
    Status, TaskNo,
};

// The ends of the ranges of a task and of a full peal, as in model's specs/Limits.
pub const TASK_LOW: u16 = 100;

pub const TASK_END: u16 = 65535;

pub const FULL_PEAL_LOW: u16 = 100;

pub const FULL_PEAL_END: u16 = 199;

// kept: the definitions of model's specs/Node by their names, which the clauses of node_step and bully_machine have, and the claims.
pub fn is_down(s: Status) -> bool
    ensures { result ≡ is_down s }
{
    s == Status::Down
}

pub fn is_election(s: Status) -> bool
    ensures { result ≡ is_election s }
{
    s == Status::Election
}

pub fn is_reorganization(s: Status) -> bool
    ensures { result ≡ is_reorganization s }
{
    s == Status::Reorganization
}

pub fn is_normal(s: Status) -> bool
    ensures { result ≡ is_normal s }
{
    s == Status::Normal
}

// In Reorganization or Normal.
pub fn is_active(s: Status) -> bool
    ensures { result ≡ is_active s }
{
    matches!(s, Status::Reorganization | Status::Normal)
}

pub fn is_node(n: u8, j: u8) -> bool
    ensures { result ≡ is_node n j }
{
    (1 <= j) & (j <= n)
}

pub fn is_other(n: u8, i: u8, j: u8) -> bool
    ensures { result ≡ is_other n i j }
{
    is_node(n, j) & !(j == i)
}

// An ordered pair of the nodes.
pub fn is_pair(n: u8, a: u8, b: u8) -> bool
    ensures { result ≡ is_pair n a b }
{
    is_node(n, a) & is_other(n, a, b)
}

pub fn is_set_of_others(n: u8, i: u8, s: u16) -> bool
    requires { (1 ≤ i) × (i ≤ node_limit) × (n ≤ node_limit) }
    ensures { result ≡ is_set_of_others n i s }
{
    node_set::is_within(n, s) & !node_set::contains(s, i)
}

// kept: two tests of a range, this and `is_full_peal`, for two definitions by their names; `contains` of a range would be as long.
pub fn is_given_task(t: TaskNo) -> bool
    ensures { result ≡ is_given_task t.number }
{
    (TASK_LOW <= t.number) & (t.number <= TASK_END)
}

// "Tasks 100 to 199 are full peals"
pub fn is_full_peal(t: TaskNo) -> bool
    ensures { result ≡ is_full_peal t.number }
{
    (FULL_PEAL_LOW <= t.number) & (t.number <= FULL_PEAL_END)
}

// "twice the members plus two is at most n"
pub fn is_at_most_half(n: u8, members: u16) -> bool
    ensures { result ≡ is_at_most_half n members }
{
    2 * node_set::count(members) + 2 <= n as u32
}

// The limits of the tower.
pub fn tower() -> Limits
    ensures { result ≡ limits.tower }
{
    Limits {
        nodes: 16,
        messages: 64,
    }
}

// The limits of the practice stand.
pub fn stand() -> Limits
    ensures { result ≡ limits.stand }
{
    Limits {
        nodes: 4,
        messages: 12,
    }
}

// "no other pair is allowed"
pub fn is_tower_or_stand(l: Limits) -> bool
    ensures { result ≡ is_tower_or_stand l }
{
    (l == tower()) | (l == stand())
}

// Whether n is outside 1 to the limit.
pub fn wrong_count(limit: u8, n: u8) -> bool
    ensures { result ≡ wrong_count limit n }
{
    !((1 <= n) & (n <= limit))
}

// Refusal 6, where n is outside 1 to the limit.
#[tactic(auto, unfolding(model::specs::Pick::pick))]
pub fn start_answer(limit: u8, n: u8) -> StartAnswer
    ensures { start_number result ≡ pick (wrong_count limit n) 6 0 }
{
    if wrong_count(limit, n) {
        return Err(StartRefusal::WrongCount);
    }
    Ok(())
}

pub fn is_accepted(a: Answer) -> bool
    ensures { result ≡ is_accepted a }
{
    a.is_ok()
}

// The number of an answer; 0 where the event is accepted.
// kept: a function with a name, here and for the status: `u8::from(answer)` would not say that the number is 01's, and 0 for Ok is no conversion.
pub fn answer_number(a: Answer) -> u8
    ensures { result ≡ answer_number a }
{
    match a {
        Ok(()) => 0,
        Err(Refusal::NotInRange) => 1,
        Err(Refusal::WrongNumber) => 7,
        Err(Refusal::WrongTask) => 8,
        Err(Refusal::WrongMessage) => 20,
        Err(Refusal::OtherNode) => 21,
        Err(Refusal::WrongStatus) => 9,
        Err(Refusal::WrongActivity) => 10,
        Err(Refusal::NotCoordinator) => 18,
        Err(Refusal::NoMajority) => 19,
        Err(Refusal::NoMessage) => 11,
        Err(Refusal::CounterAtEnd) => 12,
        Err(Refusal::CallsAtEnd) => 13,
        Err(Refusal::QueueFull) => 14,
        Err(Refusal::SentAtEnd) => 17,
    }
}

// "status: 0 Down, 1 Election, 2 Reorganization, 3 Normal"
pub fn status_number(s: Status) -> u8
    ensures { result ≡ status_number s }
{
    match s {
        Status::Down => 0,
        Status::Election => 1,
        Status::Reorganization => 2,
        Status::Normal => 3,
    }
}

// Whether f holds of each element with its number, counted from 1.
pub fn all_from_one<T: Copy, F: Fn(u8, T) -> bool>(xs: &[T], f: F) -> bool
    requires few { length xs.now ≤ 255 }
    requires callable { (i : ℕ) (x : T) → 1 ≤ i → i ≤ length xs.now → F.pre f i x }
    ensures { (p : ℕ → T → Bool) → ((i : ℕ) (x : T) (b : Bool) → 1 ≤ i → i ≤ length xs.now → F.post f i x b → b ≡ p i x) → result ≡ every p 1 xs.now }
{
    for (k, x) in xs.iter().enumerate() {
        if !f(k as u8 + 1, *x) {
            return false;
        }
    }
    true
}

// The record of every node at the start; it also stands in places that hold no record.
pub fn starting_node() -> Node
    ensures { result ≡ starting_node }
{
    Node {
        status: Status::Down,
        counter: 0,
        group: GroupNo { number: 0 },
        coordinator: 0,
        task: TaskNo { number: 0 },
        members: 0,
        last: CallNo { number: 0 },
        activity: Activity::Idle,
    }
}

// The message that stands in places that hold none.
pub fn no_message() -> Message
    ensures { result ≡ no_message }
{
    Message {
        sender: 0,
        receiver: 0,
        kind: 0,
        call: CallNo { number: 0 },
        group: GroupNo { number: 0 },
        task: TaskNo { number: 0 },
        yes: false,
    }
}
