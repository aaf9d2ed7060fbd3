// The printed lines of the machine, each written into the free end of a lent buffer, behind what is written there.
// What a line is, and what writing answers, is in specs/: Decimal, Lines, Printing.
#![tactic(auto)]

mod buffer;

ghost use Rattle.std.specs.Prelude.{◌≡◌, [], ◌∷◌, ◌++◌, ◌≤◌, length, get_or};
ghost use Rattle.model.specs.Counts as counts;
ghost use Rattle.model.specs.State.{starting_node, view};
ghost use Rattle.listing.specs.Decimal.{decimal};
ghost use Rattle.listing.specs.Lines.{row, cabinets_line, refused_line, stopped_line, node_line, messages_line, turns_line, total_lines, table_lines};
ghost use Rattle.listing.specs.Printing.{shown, printed, put_length, WroteLines};

use buffer::digit_count;
pub use buffer::{TextBuffer, print_into};
use model::{Node, Table};

// Refusal 15: the line has no room behind what is written, or the buffer's end is past its bytes.
#[derive(Clone, Copy, PartialEq, Eq)]
pub struct NoRoom;

// The answer of printing as one number, for Rust or C.
// kept: C's functions answer it.
pub fn put_length(a: Result<usize, NoRoom>) -> u64
    ensures { result ≡ put_length a }
{
    match a {
        Ok(n) => n as u64,
        Err(_) => 18446744073709551615,
    }
}

// How many bytes a number and others behind it have, with the end of the line.
fn row_len<const N: usize>(x: u64, more: &[u64; N]) -> usize
    requires { length more.now ≤ 6 }
    ensures { (result ≡ length (decimal x ++ row more.now)) × (result ≤ 256) }
{
    let mut n = digit_count(x) + 1;
    for y in more {
        n += 1 + digit_count(*y);
    }
    n
}

// The line of a word, which has its space behind it, a number and others, at the start of free, which is the free end of a buffer: how many bytes it has.
fn write_row<const N: usize>(
    free: &mut [u8],
    w: &[u8],
    x: u64,
    more: &[u64; N],
) -> Result<usize, NoRoom>
    requires { length more.now ≤ 6 }
    ensures { shown result free.new ≡ printed free.old 0 ((w.now ++ (decimal x ++ row more.now)) ∷ []) }
{
    if free.len() < w.len() + row_len(x, more) {
        return Err(NoRoom);
    }
    let mut p = buffer::put_bytes(free, 0, w);
    p = buffer::put_digits(free, p, x);
    for y in more {
        p = buffer::put_spaced(free, p, *y);
    }
    free[p] = b'\n';
    Ok(p + 1)
}

// T-05: "The totals equal the sums of the records."
pub fn total(l: &[u32; 256]) -> u64
    ensures { result ≡ counts.total l.now }
{
    let mut s: u64 = 0;
    for x in l {
        s += *x as u64;
    }
    s
}

// The record at place k of the table, also where n claims more places than there are.
fn node_at(t: Table, k: usize) -> Node
    ensures { result ≡ get_or t.nodes k starting_node }
{
    match t.nodes.get(k) {
        Some(node) => *node,
        None => predicates::starting_node(),
    }
}

impl TextBuffer<'_> {
    // Any line, made elsewhere.
    pub fn put_line(&mut self, line: &[u8]) -> Result<(), NoRoom>
        ensures { WroteLines self.old (line.now ∷ []) result self.new }
    {
        if self.bytes.len() < self.end || self.bytes.len() - self.end < line.len() {
            return Err(NoRoom);
        }
        self.put(line);
        Ok(())
    }

    // The line of a word, which has its space behind it, a number and others.
    fn put_row<const N: usize>(&mut self, w: &[u8], x: u64, more: &[u64; N]) -> Result<(), NoRoom>
        requires { length more.now ≤ 6 }
        ensures { WroteLines self.old ((w.now ++ (decimal x ++ row more.now)) ∷ []) result self.new }
    {
        if self.bytes.len() < self.end {
            return Err(NoRoom);
        }
        self.end += write_row(&mut self.bytes[self.end..], w, x, more)?;
        Ok(())
    }

    // The line of a word, which has its space behind it, and a number.
    pub fn put_one(&mut self, w: &[u8], x: u64) -> Result<(), NoRoom>
        ensures { WroteLines self.old ((w.now ++ (decimal x ++ row [])) ∷ []) result self.new }
    {
        self.put_row(w, x, &[])
    }

    // kept: a function for each of 01's lines, by its name, and each is one call.
    // How many nodes there are.
    #[tactic(auto, unfolding(crate::specs::Lines::row, crate::specs::Lines::cabinets_line))]
    pub fn put_cabinets(&mut self, n: u8) -> Result<(), NoRoom>
        ensures { WroteLines self.old (cabinets_line n ∷ []) result self.new }
    {
        self.put_one(b"cabinets ", n as u64)
    }

    // Event e was refused by r.
    #[tactic(auto, unfolding(crate::specs::Lines::row, crate::specs::Lines::refused_line))]
    pub fn put_refused(&mut self, e: u32, r: u8) -> Result<(), NoRoom>
        ensures { WroteLines self.old (refused_line e r ∷ []) result self.new }
    {
        self.put_row(b"refused ", e as u64, &[r as u64])
    }

    // The list stopped at b by r.
    #[tactic(auto, unfolding(crate::specs::Lines::row, crate::specs::Lines::stopped_line))]
    pub fn put_stopped(&mut self, b: u32, r: u8) -> Result<(), NoRoom>
        ensures { WroteLines self.old (stopped_line b r ∷ []) result self.new }
    {
        self.put_row(b"stopped ", b as u64, &[r as u64])
    }

    // How many messages wait.
    #[tactic(auto, unfolding(crate::specs::Lines::row, crate::specs::Lines::messages_line))]
    pub fn put_messages(&mut self, k: u32) -> Result<(), NoRoom>
        ensures { WroteLines self.old (messages_line k ∷ []) result self.new }
    {
        self.put_one(b"messages ", k as u64)
    }

    // How many turns were made.
    #[tactic(auto, unfolding(crate::specs::Lines::row, crate::specs::Lines::turns_line))]
    pub fn put_turns(&mut self, k: u32) -> Result<(), NoRoom>
        ensures { WroteLines self.old (turns_line k ∷ []) result self.new }
    {
        self.put_one(b"turns ", k as u64)
    }

    // The three totals of a table.
    fn put_totals(&mut self, t: Table) -> Result<(), NoRoom>
        ensures { WroteLines self.old (total_lines (view t)) result self.new }
    {
        let sent = t.sent;
        let delivered = t.delivered;
        let lost = t.lost;
        self.put_one(b"sent ", total(&sent))?;
        self.put_one(b"delivered ", total(&delivered))?;
        self.put_one(b"lost ", total(&lost))
    }

    // Node i.
    #[tactic(auto, unfolding(crate::specs::Lines::row, crate::specs::Lines::node_line))]
    pub fn put_node(&mut self, i: u8, node: Node) -> Result<(), NoRoom>
        ensures { WroteLines self.old (node_line i node ∷ []) result self.new }
    {
        let group = node.group;
        let task = node.task;
        self.put_row(
            b"",
            i as u64,
            &[
                predicates::status_number(node.status) as u64,
                node.coordinator as u64,
                group.number as u64,
                task.number as u64,
                node.counter as u64,
                node_set::count(node.members) as u64,
            ],
        )
    }

    // A line for each node, how many messages wait, and the totals.
    pub fn put_table(&mut self, t: Table) -> Result<(), NoRoom>
        ensures { WroteLines self.old (table_lines (view t)) result self.new }
    {
        let n = t.n;
        for i in 0..n {
            self.put_node(i + 1, node_at(t, i as usize))?;
        }
        self.put_messages(t.waiting as u32)?;
        self.put_totals(t)
    }
}
