// The lines of a step, written into a lent buffer. The caller sees to the room.
ghost use Rattle.std.specs.Prelude.{◌≡◌, true, [], ◌∷◌, ◌++◌, ◌+◌, ◌-◌, ◌%◌, ◌≤◌, length, get_or};
ghost use Rattle.model.specs.Pick.{pick};
ghost use Rattle.model.specs.State.{starting_node, no_message, first_of, view};
ghost use Rattle.model.specs.Step as spec;
ghost use Rattle.machine.specs.Parts as parts;
ghost use Rattle.machine.specs.Stepped.{Stepped};
ghost use Rattle.listing.specs.Ascii.{bytes};
ghost use Rattle.listing.specs.Printing.{joined, HasRoom, Wrote};
ghost use Rattle.trace_text.specs.Words.{record_line, same_node, message_words};
ghost use Rattle.trace_text.specs.Trace.{detail_lines, step_lines};
ghost use Rattle.trace_list.specs.Steps.{Moves};

use crate::{records, words};
use listing::TextBuffer;
use model::{Event, Message, Node, Outcome, Table};

// The record of the event's node.
fn node_of(nodes: [Node; 16], v: Event) -> Node
    ensures { result ≡ get_or nodes ((spec.actor v + 15) % 16) starting_node }
{
    nodes[(node_step::actor(v) as usize + 15) % 16] // place i - 1
}

// The message that the event takes out.
fn message_for(messages: [Message; 64], waiting: u8, v: Event) -> Message
    requires { waiting ≤ 64 }
    ensures { result ≡ get_or messages (parts.place_for (first_of waiting no_message messages) v % 64) no_message }
{
    messages[machine::place_for(messages, waiting, v) % 64]
}

// The message at place k.
fn message_at(messages: [Message; 64], k: u8) -> Message
    ensures { result ≡ get_or messages (k % 64) no_message }
{
    messages[k as usize % 64]
}

// How many messages wait once the event's own is out.
#[tactic(auto, unfolding(model::specs::Pick::pick))]
fn left_waiting(waiting: u8, v: Event) -> u8
    requires { parts.takes v ≡ true → 1 ≤ waiting }
    ensures { result ≡ pick (parts.takes v) (waiting - 1) waiting }
{
    if machine::takes(v) {
        waiting - 1
    } else {
        waiting
    }
}

// The line of node i, whose record was c and is d, if it changed.
fn put_changed(out: &mut TextBuffer, i: u8, c: Node, d: Node)
    requires { HasRoom out.old 240 }
    ensures { Wrote out.old (joined (pick (same_node c d) [] (record_line i d ∷ []))) out.new × (out.new.end ≤ out.old.end + 240) }
{
    if !records::same_node(c, d) {
        words::put_record(out, i, d);
    }
}

// The line of the message m, if one was taken out or put in, which w says.
// kept: the flag is `detail_lines`'s own; an Option would be made by the caller for this one test.
fn put_moved(out: &mut TextBuffer, some: bool, w: &[u8], m: Message)
    requires { HasRoom out.old (length w.now + 97) }
    ensures { Wrote out.old (joined (pick some ((w.now ++ (message_words m ++ bytes "\n")) ∷ []) [])) out.new × (out.new.end ≤ out.old.end + length w.now + 97) }
{
    if some {
        words::put_message_line(out, w, m);
    }
}

// All lines behind the first of an accepted event. No record but that of the event's node changes, and what was put in stands behind the messages that were left.
fn put_details(out: &mut TextBuffer, t: Table, v: Event, u: Table)
    requires { HasRoom out.old 464 × Moves t v u }
    ensures { Wrote out.old (joined (detail_lines (view t) v (view u))) out.new × (out.new.end ≤ out.old.end + 464) }
{
    let left = left_waiting(t.waiting, v);
    put_changed(
        out,
        node_step::actor(v),
        node_of(t.nodes, v),
        node_of(u.nodes, v),
    );
    put_moved(
        out,
        machine::takes(v),
        b"  taken ",
        message_for(t.messages, t.waiting, v),
    );
    put_moved(
        out,
        left < u.waiting,
        b"  sent ",
        message_at(u.messages, left),
    );
}

// The lines of event e, which is v, on the table t; o is its outcome.
pub fn put_step(out: &mut TextBuffer, e: u32, v: Event, t: Table, o: Outcome)
    requires { HasRoom out.old 512 × Stepped t v o }
    ensures { Wrote out.old (joined (step_lines (view t) e v)) out.new × (out.new.end ≤ out.old.end + 512) }
{
    if !predicates::is_accepted(o.answer) {
        return words::put_refused_step(out, e, v, predicates::answer_number(o.answer));
    }
    words::put_accepted(out, e, v);
    put_details(out, t, v, o.table);
}
