// All accepted lists of a length, found by a search over a stack of tables, and their text in pieces: no beginning of a list is run twice, and nothing grows with
// the text. What the text is, is in crate short_lists_text; what a search means, in specs/.
#![tactic(auto)]

mod line;

ghost use Rattle.std.specs.Prelude.{◌≡◌, ◌-◌, ◌≤◌, length};
ghost use Rattle.model.specs.Limits.{tower};
ghost use Rattle.packed.specs.Packed.{Rulable, Ruled};
ghost use Rattle.list_search.specs.Search.{Lowest, First, Going, Sound, Begun, Gave, Unwritten, GaveInto};

use line::LINE;
use listing::TextBuffer;
use model::{Event, Node};
use packed::{Ruling, WORDS};

// A list of 7 events goes through 8 tables; the last of them is not needed.
const LEVELS: usize = 7;

// The room for a piece.
pub const PIECE: usize = 65536;

// A table on the way to lists, its messages as words and without its counts, on which no short list depends; how many events of the alphabet were tried on it; and the
// beginning of the line of every list through it, which is the first end bytes of line.
// kept: line and its end, which only `extend` and one slice use, so that a type for the two is no plainer; words and how many of them wait, since packed's promises take them so (`queue`)
#[derive(Clone, Copy)]
struct Level {
    nodes: [Node; 16],
    words: [u32; WORDS],
    waiting: u8,
    tried: u8,
    line: [u8; LINE],
    end: usize,
}

// A search for lists of a length among n nodes, of which some were given; n is 0 where the input is refused. Only `begin` and `next_lines` make one.
// kept: 0 and no Option: a refused input is a search too, which gives its line; with an Option of the rest each function would take it apart first.
#[derive(Clone, Copy)]
pub struct Search {
    n: u8,
    length: usize,
    given: u32,
    // how many levels of the stack are used, the lowest first
    // kept: height beside levels: a type for the stack would have these two fields, as this one has, and is no plainer
    height: usize,
    levels: [Level; LEVELS],
}

// So many bytes were written. Where they are not the last of the text, next goes on with the next.
#[derive(Clone, Copy)]
pub struct Piece {
    pub written: usize,
    pub next: Option<Search>,
}

// The judgement of an event by the tower's limit of messages.
fn rule_in_tower(q: &[u32; WORDS], n: u8, waiting: u8, c: Node, e: Event) -> Ruling
    requires { (waiting ≤ 64) × Rulable q.now n waiting c e }
    ensures { Ruled q.now n tower.messages waiting c e result }
{
    packed::rule(q, n, predicates::tower().messages, waiting, c, e)
}

// The next lines of a search in which an event is missing behind the topmost table. That table stands in this function's own local, and the functions that it
// calls take a node, a message and numbers: a table is copied only where an event is accepted that is not a list's last, where the search goes back to the table
// below, and with the search at both ends of a piece.
fn lines_on(s: Search, out: &mut TextBuffer) -> Piece
    requires { Going s (s.height - 1) × (1 ≤ s.length) × Unwritten out.old }
    ensures { GaveInto s out.old result out.new }
{
    let n = s.n;
    let length = s.length;
    let count = list_events::event_count(n);
    let events = list_events::events(n);
    let mut levels = s.levels;
    // how many levels stand below the topmost
    let mut height = s.height - 1;
    let mut top = levels[height];
    let mut given = s.given;
    // kept: a loop by hand: it goes up and down the stack, which no iterator does
    loop {
        if top.tried == count {
            if height == 0 {
                line::put_count(out, given);
                return Piece {
                    written: out.end,
                    next: None,
                };
            }
            height -= 1;
            top = levels[height];
            continue;
        }
        let e = events[top.tried as usize];
        top.tried += 1;
        let i = packed::seat(e);
        let c = top.nodes[i];
        let ruling = rule_in_tower(&top.words, n, top.waiting, c, e);
        let Ok(reaction) = ruling.verdict else {
            continue;
        };
        if height + 1 == length {
            line::put_line(out, &top.line[..top.end], e);
            given += 1;
            if out.end <= PIECE - LINE {
                continue;
            }
            levels[height] = top;
            return Piece {
                written: out.end,
                next: Some(Search {
                    n,
                    length,
                    given,
                    height: height + 1,
                    levels,
                }),
            };
        }
        levels[height] = top;
        height += 1;
        let outgoing = reaction.outgoing;
        top.nodes[i] = reaction.node;
        top.waiting = packed::exchange(&mut top.words, ruling.place, top.waiting, outgoing);
        top.end = line::extend(&mut top.line, top.end, e);
        top.tried = 0;
    }
}

// An input that is refused: its line, alone.
fn refused(s: Search, out: &mut TextBuffer) -> Piece
    requires { (s.n ≡ 0) × Unwritten out.old }
    ensures { GaveInto s out.old result out.new }
{
    out.put(b"stopped 0 16\n");
    Piece {
        written: out.end,
        next: None,
    }
}

// Lists of no events: there is one, an empty line.
fn empty_list(s: Search, out: &mut TextBuffer) -> Piece
    requires { Going s (s.height - 1) × (s.length ≡ 0) × Unwritten out.old }
    ensures { GaveInto s out.old result out.new }
{
    out.put(b"\n");
    line::put_count(out, s.given + 1);
    Piece {
        written: out.end,
        next: None,
    }
}

// The next whole lines of the text that s still gives, at the start of out: to be called with the search that the call before gave, until one gives none.
pub fn next_lines(s: Search, out: &mut [u8; PIECE]) -> Piece
    requires { Sound s }
    ensures { Gave s out.new result }
{
    let mut text = TextBuffer { bytes: out, end: 0 };
    if s.n == 0 {
        return refused(s, &mut text);
    }
    if s.length == 0 {
        return empty_list(s, &mut text);
    }
    lines_on(s, &mut text)
}

// The starting table of n nodes in the tower, on which no event was tried.
fn lowest(n: u8) -> Level
    ensures { Lowest n result }
{
    let begun = machine::starting(n, predicates::tower());
    let nodes = begun.table.nodes;
    Level {
        nodes,
        words: packed::none(),
        waiting: 0,
        tried: 0,
        line: [0; LINE],
        end: 0,
    }
}

// A search that has given nothing yet.
fn first(n: u8, length: usize) -> Search
    ensures { First n length result }
{
    Search {
        n,
        length,
        given: 0,
        height: 1,
        levels: [lowest(n); LEVELS],
    }
}

// The search for the text of any input.
#[tactic(auto, using(short_lists_text::proofs::Refuses::two_bytes, crate::proofs::Ends::begun_refused, crate::proofs::Ends::begun_fits))]
pub fn begin(input: &[u8]) -> Search
    ensures { Begun input.now result }
{
    // "n from 1 to 3 and a length from 0 to 7, as two bytes"
    if !list_events::fits(input, 7) {
        return first(0, 0);
    }
    first(input[0], input[1] as usize)
}
