// The types of the driver (02, T-09, "Round of the cable"). What they mean, its turns and the claims are in specs/.
// This crate has no functions: `driver` holds the code.
#![tactic(auto)]

use model::{Answer, Table};

// A place in the round, which is one of "the ordered pairs (1,2), (1,3) and so on to (n,n−1)". Any two numbers can be handed in as one.
#[derive(Clone, Copy)]
pub struct Place {
    pub sender: u8,
    pub receiver: u8,
}

// What a turn did with the oldest message of its pair. The numbers are in specs/Turn.
#[derive(Clone, Copy)]
pub enum Done {
    Nothing,
    Delivered,
    Lost,
}

// What a turn gives: the table after it, the place of the next turn, what was done, and the answer, accepted or the ground of its refusal.
// kept: no Result, since `Turned` of driver says what table, place and `done` stand beside a refusal.
#[derive(Clone, Copy)]
pub struct TurnOutcome {
    pub table: Table,
    pub place: Place,
    pub done: Done,
    pub answer: Answer,
}
