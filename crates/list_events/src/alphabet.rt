// The events that may stand in a list, by their places in the alphabet, for the n of T-01.
// kept: n is a u8 with a clause, as it is `n` of a Table, which may be any; `fits` tests it before a function here is called.
ghost use Rattle.std.specs.Prelude.{◌≡◌, ◌≤◌, ◌<◌};
ghost use Rattle.list_events.specs.Events as spec;

use model::{Event, TaskNo};

// Three nodes have so many events, and fewer nodes have fewer.
pub const MOST: usize = 33;

// How many pairs of two different nodes there are.
fn pair_count(n: u8) -> u8
    requires { (1 ≤ n) × (n ≤ 3) }
    ensures { (result ≡ spec.pair_count n) × (result ≤ 6) }
{
    n * (n - 1)
}

// How many events there are.
#[tactic(auto, using(crate::proofs::Places::sizes))]
pub fn event_count(n: u8) -> u8
    requires { (1 ≤ n) × (n ≤ 3) }
    ensures { (result ≡ spec.size_of n) × (result ≤ 33) }
{
    7 * n + 2 * pair_count(n)
}

// The event of one node with tag 0x10 + k, for k up to 6.
#[tactic(auto, unfolding(crate::specs::Events::single, model::specs::Pick::pick))]
fn single(k: u8, i: u8) -> Event
    ensures { result ≡ spec.single k i }
{
    match k {
        0 => Event::Crash(i),
        1 => Event::Recover(i),
        2 => Event::Check(i),
        3 => Event::Timeout(i),
        4 => Event::Tick(i),
        5 => Event::Expire(i),
        _ => Event::Finish(i, TaskNo { number: 100 }),
    }
}

// The sender of pair p, from 0 on.
fn sender(n: u8, p: u8) -> u8
    requires { (2 ≤ n) × (n ≤ 3) × (p < 6) }
    ensures { result ≡ spec.sender n p }
{
    p / (n - 1) + 1
}

// Its receiver.
#[tactic(auto, unfolding(crate::specs::Events::receiver, model::specs::Pick::pick))]
fn receiver(n: u8, p: u8) -> u8
    requires { (2 ≤ n) × (n ≤ 3) × (p < 6) }
    ensures { result ≡ spec.receiver n p }
{
    let j = p % (n - 1) + 1;
    if j < sender(n, p) {
        return j;
    }
    j + 1
}

// Event i, from 0 on.
#[tactic(auto, using(crate::proofs::Places::sizes, crate::proofs::Places::found), unfolding(crate::specs::Events::event_by, model::specs::Pick::pick))]
fn event_at(n: u8, i: u8) -> Event
    requires { (1 ≤ n) × (n ≤ 3) × (i < spec.size_of n) }
    ensures { result ≡ spec.event_at n i }
{
    let singles = 7 * n;
    if i < singles {
        return single(i / n, i % n + 1);
    }
    let p = i - singles;
    let pairs = pair_count(n);
    if p < pairs {
        return Event::Deliver(sender(n, p), receiver(n, p));
    }
    let q = p - pairs;
    Event::Lose(sender(n, q), receiver(n, q))
}

// All of them, in order.
pub fn events(n: u8) -> [Event; MOST]
    requires { (1 ≤ n) × (n ≤ 3) }
    ensures { spec.Holds n result }
{
    let mut es = [Event::Crash(0); MOST];
    for i in 0..event_count(n) {
        es[i as usize] = event_at(n, i);
    }
    es
}
