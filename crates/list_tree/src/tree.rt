// The tree of accepted lists: a state for each, numbered from 0, and the edge by which it is reached. The table of a state is not kept; it is found by running its list again.
ghost use Rattle.std.specs.Prelude.{◌≡◌, [], ◌∷◌, ◌++◌, ◌+◌, ◌≤◌, ◌<◌, length, take, drop, get_or};
ghost use Rattle.model.specs.Limits.{tower};
ghost use Rattle.model.specs.State.{start, view};
ghost use Rattle.model.specs.Step.{step, run_from};
ghost use Rattle.short_lists_text.specs.Rows.{concat_map};
ghost use Rattle.aldebaran_text.specs.System.{states};
ghost use Rattle.list_tree.specs.Tree.{lists_in, extended, next_of, Sound, IsRoot, Extends};

use model::{Event, Table};

// With three nodes and lists of up to four events there are 601 states, and so 600 edges; with fewer nodes or shorter lists there are fewer.
const EDGES: usize = 600;

// How a state is reached: from the state `source`, by the event.
#[derive(Clone, Copy)]
pub struct Edge {
    pub source: usize,
    pub event: Event,
}

// States of lists of events among n nodes (01's cabinets): state 0 is the list of no events, and there is one more for each of the first count edges: edges[k] leads into the state k + 1.
// kept: `Sound` in the clauses and no invariant of the type: it is of a whole tree, as `lists_in` and `Extends` are; an invariant would speak of n, count and edges one by one.
// kept: edges and their count: nothing here may allocate, and a type for the two would have these two fields, as this one has
#[derive(Clone, Copy)]
pub struct Tree {
    pub n: u8,
    pub count: usize,
    pub edges: [Edge; EDGES],
}

// The state 0 alone.
fn root(n: u8) -> Tree
    requires { (1 ≤ n) × (n ≤ 3) }
    ensures { IsRoot n result }
{
    let none = Edge {
        source: 0,
        event: Event::Crash(0),
    };
    Tree {
        n,
        count: 0,
        edges: [none; EDGES],
    }
}

// One state more, reached from the state a by e.
fn add_edge(t: &mut Tree, a: usize, e: Event)
    requires { Sound t.old × (t.old.count < 600) × (a ≤ t.old.count) }
    ensures { Extends t.old ((get_or (lists_in t.old) a [] ++ (e ∷ [])) ∷ []) t.new }
{
    t.edges[t.count] = Edge {
        source: a,
        event: e,
    };
    t.count += 1;
}

// The table that the list of the state b leads to.
fn table_of(t: &Tree, b: usize) -> Table
    requires { Sound t.now × (b ≤ t.now.count) }
    ensures { view result ≡ run_from (start t.now.n tower) (get_or (lists_in t.now) b []) }
{
    if b == 0 {
        return machine::starting(t.n, predicates::tower()).table;
    }
    let x = t.edges[b - 1];
    machine::step(table_of(t, x.source), x.event).table
}

// One state more, from the state a, where e is accepted on the given table.
fn add_event(t: &mut Tree, table: Table, a: usize, e: Event)
    requires { Sound t.old × (a ≤ t.old.count) × (length (lists_in t.old ++ extended (get_or (lists_in t.old) a []) e (step (view table) e)) ≤ 601) }
    ensures { Extends t.old (extended (get_or (lists_in t.old) a []) e (step (view table) e)) t.new }
{
    if machine::step(table, e).answer.is_err() {
        return;
    }
    add_edge(t, a, e);
}

// One state more for each event that is accepted on the table of the state a, in order.
fn add_next(t: &mut Tree, a: usize)
    requires { Sound t.old × (a ≤ t.old.count) × (length (lists_in t.old ++ next_of (start t.old.n tower) (get_or (lists_in t.old) a [])) ≤ 601) }
    ensures { Extends t.old (next_of (start t.old.n tower) (get_or (lists_in t.old) a [])) t.new }
{
    let table = table_of(t, a);
    let count = list_events::event_count(t.n);
    let events = list_events::events(t.n);
    for e in &events[..count as usize] {
        add_event(t, table, a, *e);
    }
}

// The same for each of the states from first up to end, which is not among them.
fn add_level(t: &mut Tree, first: usize, end: usize)
    requires { Sound t.old × (first ≤ end) × (end ≤ t.old.count + 1) × (length (lists_in t.old ++ concat_map (next_of (start t.old.n tower)) (drop first (take end (lists_in t.old)))) ≤ 601) }
    ensures { Extends t.old (concat_map (next_of (start t.old.n tower)) (drop first (take end (lists_in t.old)))) t.new }
{
    for a in first..end {
        add_next(t, a);
    }
}

// The tree of all accepted lists of up to `most` events among n nodes.
pub fn tree_of(n: u8, most: u8) -> Tree
    requires { (1 ≤ n) × (n ≤ 3) × (most ≤ 4) }
    ensures { Sound result × (lists_in result ≡ states most (start n tower)) }
{
    let mut t = root(n);
    let mut first = 0;
    for _ in 0..most {
        let end = t.count + 1;
        add_level(&mut t, first, end);
        first = end;
    }
    t
}
