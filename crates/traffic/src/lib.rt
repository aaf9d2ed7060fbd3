// T-05, traffic totals: a table's counts as 16 rows of 16, the waiting messages counted by pair, and whether a table's counts are in range.
// kept: the three counts are three parameters, as they are three fields of 01's table: one array of three counts would change its form in bytes.
#![tactic(auto)]

ghost use Rattle.std.specs.Prelude.{◌≡◌, ◌+◌, ◌≤◌, ◌<◌, eqb, []};
ghost use Rattle.model.specs.Counts.{count_at, listed, rows_of};
ghost use Rattle.model.specs.Limits.{tower};
ghost use Rattle.model.specs.Range as range;
ghost use Rattle.model.specs.Range.{TwoPairs};
ghost use Rattle.model.specs.State.{no_message, first_of, up_to};
ghost use Rattle.model.specs.State as state;
ghost use Rattle.traffic.specs.Rows.{entry, raised, one_more_in, used_of, most_at, all_in_range, adding};

use model::Message;

// ── as rows ──

// "16 rows of 16 counts": a row for each sender.
pub fn rows(counts: [u32; 256]) -> [[u32; 16]; 16]
    ensures { result ≡ rows_of (count_at counts) }
{
    let mut all = [[0u32; 16]; 16];
    for a in 0..16 {
        all[a].copy_from_slice(&counts[a * 16..a * 16 + 16]);
    }
    all
}

// ── the waiting messages ──

// One more from a to b.
fn raise(all: &mut [[u32; 16]; 16], a: u8, b: u8)
    requires { (1 ≤ a) × (a ≤ 16) × (1 ≤ b) × (b ≤ 16) × (entry all.old a b < 4294967295) }
    ensures { all.new ≡ raised all.old a b }
{
    let i = (a - 1) as usize;
    let j = (b - 1) as usize;
    all[i][j] += 1;
}

// The same, for any numbers.
#[tactic(auto, unfolding(crate::specs::Rows::one_more_in, model::specs::Pick::pick))]
fn count(all: &mut [[u32; 16]; 16], a: u8, b: u8)
    requires { entry all.old a b < 4294967295 }
    ensures { all.new ≡ one_more_in all.old a b }
{
    if predicates::is_node(16, a) & predicates::is_node(16, b) {
        raise(all, a, b);
    }
}

// How many of the 64 places hold a waiting message.
#[tactic(auto, unfolding(crate::specs::Rows::used_of, model::specs::Pick::pick))]
fn used(waiting: u8) -> usize
    ensures { result ≡ used_of waiting }
{
    (waiting as usize).min(64)
}

// The waiting messages counted by pair. A message whose sender or receiver is not 1 to 16 counts nowhere, and of more than 64 only the 64 places count.
pub fn waiting_rows(messages: [Message; 64], waiting: u8) -> [[u32; 16]; 16]
    ensures { result ≡ rows_of (state.waiting (first_of waiting no_message messages)) }
{
    let mut all = [[0u32; 16]; 16];
    for m in &messages[..used(waiting)] {
        count(&mut all, m.sender, m.receiver);
    }
    all
}

// ── in range ──

// An ordered pair of the n nodes.
// kept: tried, and it misses a speed bar: predicates::is_pair, of u8, costs `traffic_in_range` a sixth more instructions.
fn is_pair(n: u32, a: u32, b: u32) -> bool
    ensures { result ≡ range.is_pair n a b }
{
    ((1 <= a) & (a <= n)) & (((1 <= b) & (b <= n)) & !(b == a))
}

// The most that a count at place k may be: "a count that stands for no pair of its n cabinets is 0, and no count is above 33,554,430."
#[tactic(auto, unfolding(crate::specs::Rows::most_at, model::specs::Pick::pick))]
fn most(n: u32, k: u32) -> u32
    ensures { result ≡ most_at n k }
{
    if is_pair(n, k / 16 + 1, k % 16 + 1) {
        33554430
    } else {
        0
    }
}

// Whether the counts of messages sent, delivered and lost are in range for n nodes. The tests are joined with no branch between them.
pub fn counts_in_range(n: u8, sent: &[u32; 256], delivered: &[u32; 256], lost: &[u32; 256]) -> bool
    ensures { result ≡ all_in_range n sent.now delivered.now lost.now }
{
    let mut good = true;
    for k in 0..256 {
        let i = k as usize;
        let end = most(n as u32, k);
        good &= (sent[i] <= end) & (delivered[i] <= end) & (lost[i] <= end);
    }
    good
}

// "Sent is delivered plus lost plus those waiting", in 64 bits.
fn sum_holds(sent: u32, delivered: u32, lost: u32, waiting: u32) -> bool
    ensures { result ≡ eqb sent (delivered + lost + waiting) }
{
    sent as u64 == delivered as u64 + lost as u64 + waiting as u64
}

// The same from a to each of n nodes.
fn row_adds_up(
    n: u8,
    a: usize,
    sent: &[u32; 256],
    delivered: &[u32; 256],
    lost: &[u32; 256],
    waiting: &[[u32; 16]; 16],
) -> bool
    requires { (1 ≤ a) × (a ≤ 16) × (n ≤ 16) }
    ensures { result ≡ up_to n (adding sent.now delivered.now lost.now waiting.now a) }
{
    let mut good = true;
    for b in 0..n as usize {
        let k = (a - 1) * 16 + b;
        good &= sum_holds(sent[k], delivered[k], lost[k], waiting[a - 1][b]);
    }
    good
}

// The same from each of n nodes to each; `waiting` has those waiting, as `waiting_rows` counts them.
pub fn adds_up(
    n: u8,
    sent: &[u32; 256],
    delivered: &[u32; 256],
    lost: &[u32; 256],
    waiting: &[[u32; 16]; 16],
) -> bool
    requires { n ≤ 16 }
    ensures { result ≡ up_to n (λ a. up_to n (adding sent.now delivered.now lost.now waiting.now a)) }
{
    let mut good = true;
    for a in 0..n as usize {
        good &= row_adds_up(n, a + 1, sent, delivered, lost, waiting);
    }
    good
}

// T-05: "A table is in range only if that holds, a count that stands for no pair of its n cabinets is 0, and no count is above 33,554,430." By the parts of a table, so
// that no whole one is copied; its nodes and its limits don't matter.
pub fn traffic_in_range(
    n: u8,
    messages: [Message; 64],
    waiting: u8,
    sent: &[u32; 256],
    delivered: &[u32; 256],
    lost: &[u32; 256],
) -> bool
    requires { n ≤ 16 }
    ensures { result ≡ state.traffic_in_range (record { rule = TwoPairs; n = n; limits = tower; nodes = []; queue = first_of waiting no_message messages; sent = sent.now; delivered = delivered.now; lost = lost.now }) }
{
    let rows = waiting_rows(messages, waiting);
    counts_in_range(n, sent, delivered, lost) & adds_up(n, sent, delivered, lost, &rows)
}
