// A record, a message and the first line of a step in words, written into a lent buffer. The caller sees to the room.
ghost use Rattle.std.specs.Prelude.{[], ◌∷◌, ◌++◌, ◌+◌, ◌≤◌, length};
ghost use Rattle.node_set.specs.NodeSet.{has};
ghost use Rattle.model.specs.Pick.{pick};
ghost use Rattle.listing.specs.Ascii.{bytes};
ghost use Rattle.listing.specs.Decimal.{decimal};
ghost use Rattle.listing.specs.Printing.{HasRoom, Wrote};
ghost use Rattle.short_lists_text.specs.Text.{spaced, event_text};
ghost use Rattle.trace_text.specs.Words.{nodes_from, set_text, numbered, activity_text, shown_numbers, record_line, kind_text, carried_text, message_words};
ghost use Rattle.trace_text.specs.Trace.{accepted_line, refused_step_line};

use list_events::put_event;
use listing::TextBuffer;
use model::{Activity, Event, Message, Node};

// ── numbers ──

// x in decimal.
#[tactic(auto, using(listing::proofs::Decimal::decimal_32_long, crate::proofs::Put::put_as))]
fn number(out: &mut TextBuffer, x: u32)
    requires { HasRoom out.old 10 }
    ensures { Wrote out.old (decimal x) out.new × (out.new.end ≤ out.old.end + 10) }
{
    out.put_number(x as u64);
}

// A space and x in decimal.
#[tactic(auto, using(listing::proofs::Decimal::decimal_32_long, crate::proofs::Put::put_as, short_lists_text::proofs::Spaced::spaced_one))]
fn field(out: &mut TextBuffer, x: u32)
    requires { HasRoom out.old 11 }
    ensures { Wrote out.old (spaced (x ∷ [])) out.new × (out.new.end ≤ out.old.end + 11) }
{
    out.put_field(x as u64);
}

// A word and a number.
fn put_numbered(out: &mut TextBuffer, w: &[u8], x: u32)
    requires { HasRoom out.old (length w.now + 11) }
    ensures { Wrote out.old (numbered w.now x) out.new × (out.new.end ≤ out.old.end + length w.now + 11) }
{
    out.put(w);
    field(out, x);
}

// ── a record ──

// Node i behind a space, if it is in s.
fn put_member(out: &mut TextBuffer, s: u16, i: u8)
    requires { HasRoom out.old 3 × (1 ≤ i) × (i ≤ 16) }
    ensures { Wrote out.old (spaced (pick (has s i) (i ∷ []) [])) out.new × (out.new.end ≤ out.old.end + 3) }
{
    if node_set::contains(s, i) {
        out.put_field(i as u64);
    }
}

// The nodes of s, each behind a space.
fn put_nodes(out: &mut TextBuffer, s: u16)
    requires { HasRoom out.old 48 }
    ensures { Wrote out.old (spaced (nodes_from 16 1 s)) out.new × (out.new.end ≤ out.old.end + 48) }
{
    for i in 0..16 {
        put_member(out, s, i + 1);
    }
}

// The nodes of a set, or that there are none.
#[tactic(auto, unfolding(trace_text::specs::Words::set_text, model::specs::Pick::pick))]
fn put_set(out: &mut TextBuffer, s: u16)
    requires { HasRoom out.old 48 }
    ensures { Wrote out.old (set_text s) out.new × (out.new.end ≤ out.old.end + 48) }
{
    if s == 0 {
        out.put(b" none")
    } else {
        put_nodes(out, s)
    }
}

// A word and a set.
fn put_word_set(out: &mut TextBuffer, w: &[u8], s: u16)
    requires { HasRoom out.old (length w.now + 48) }
    ensures { Wrote out.old (w.now ++ set_text s) out.new × (out.new.end ≤ out.old.end + length w.now + 48) }
{
    out.put(w);
    put_set(out, s);
}

// Asking, waiting and inviting, with the set found; handing and forwarding, with whom still: a word and a number, and a word and a set.
fn put_with_set(out: &mut TextBuffer, w: &[u8], i: u8, name: &[u8], s: u16)
    requires { HasRoom out.old (length w.now + length name.now + 59) }
    ensures { Wrote out.old (numbered w.now i ++ (name.now ++ set_text s)) out.new × (out.new.end ≤ out.old.end + length w.now + length name.now + 59) }
{
    put_numbered(out, w, i as u32);
    put_word_set(out, name, s);
}

// Forwarding and accepting: the caller, and the number of its call.
fn put_caller(out: &mut TextBuffer, a: u8, k: u32)
    requires { HasRoom out.old 48 }
    ensures { Wrote out.old (numbered (bytes " caller") a ++ numbered (bytes " call") k) out.new × (out.new.end ≤ out.old.end + 48) }
{
    put_numbered(out, b" caller", a as u32);
    put_numbered(out, b" call", k);
}

// An activity in words.
fn put_activity(out: &mut TextBuffer, a: Activity)
    requires { HasRoom out.old 160 }
    ensures { Wrote out.old (activity_text a) out.new × (out.new.end ≤ out.old.end + 160) }
{
    match a {
        Activity::Idle => out.put(b"idle"),
        Activity::Asking { asked, found } => {
            put_with_set(out, b"asking", asked, b" found", found);
        }
        Activity::Waiting { ticks, found } => {
            put_with_set(out, b"waiting ticks", ticks, b" found", found);
        }
        Activity::Inviting { found, former, now } => {
            put_with_set(out, b"inviting", now, b" found", found);
            put_word_set(out, b" former", former);
        }
        Activity::Collecting => out.put(b"collecting"),
        Activity::Handing { rest, now } => {
            put_with_set(out, b"handing", now, b" still", rest);
        }
        Activity::Contacting => out.put(b"contacting"),
        Activity::Forwarding {
            rest,
            now,
            caller,
            call,
        } => {
            put_with_set(out, b"forwarding", now, b" still", rest);
            put_caller(out, caller, call.number);
        }
        Activity::Accepting { caller, call } => {
            out.put(b"accepting");
            put_caller(out, caller, call.number);
        }
    }
}

// What the bench's line of a record shows behind the node's number.
fn put_shown(out: &mut TextBuffer, c: Node)
    requires { HasRoom out.old 66 }
    ensures { Wrote out.old (spaced (shown_numbers c)) out.new × (out.new.end ≤ out.old.end + 66) }
{
    field(out, predicates::status_number(c.status) as u32);
    field(out, c.coordinator as u32);
    field(out, c.group.number);
    field(out, c.task.number as u32);
    field(out, c.counter);
    field(out, node_set::count(c.members));
}

// The line of node i's record.
pub fn put_record(out: &mut TextBuffer, i: u8, c: Node)
    requires { HasRoom out.old 240 }
    ensures { Wrote out.old (record_line i c) out.new × (out.new.end ≤ out.old.end + 240) }
{
    out.put(b"  ");
    number(out, i as u32);
    put_shown(out, c);
    out.put(b" ");
    put_activity(out, c.activity);
    out.put(b"\n");
}

// ── a message ──

// What a message of its kind is called.
#[tactic(auto, unfolding(trace_text::specs::Words::kind_text, model::specs::Pick::pick))]
fn put_kind(out: &mut TextBuffer, k: u8)
    requires { HasRoom out.old 17 }
    ensures { Wrote out.old (kind_text k) out.new × (out.new.end ≤ out.old.end + 17) }
{
    match k {
        1 => out.put(b"AreYouCoordinator"),
        2 => out.put(b"AreYouThere"),
        3 => out.put(b"Invitation"),
        4 => out.put(b"Accept"),
        5 => out.put(b"Ready"),
        _ => out.put(b"reply"),
    }
}

#[tactic(auto, unfolding(model::specs::Pick::pick))]
fn put_yes(out: &mut TextBuffer, yes: bool)
    requires { HasRoom out.old 32 }
    ensures { Wrote out.old (pick yes (bytes " yes") (bytes " no")) out.new × (out.new.end ≤ out.old.end + 32) }
{
    if yes {
        out.put(b" yes")
    } else {
        out.put(b" no")
    }
}

// What a message of its kind carries.
fn put_carried(out: &mut TextBuffer, m: Message)
    requires { HasRoom out.old 33 }
    ensures { Wrote out.old (carried_text m) out.new × (out.new.end ≤ out.old.end + 33) }
{
    match m.kind {
        1 => {}
        6 => put_yes(out, m.yes),
        5 => {
            put_numbered(out, b" group", m.group.number);
            put_numbered(out, b" task", m.task.number as u32);
        }
        _ => put_numbered(out, b" group", m.group.number),
    }
}

// From whom, and to whom.
fn put_way(out: &mut TextBuffer, a: u8, b: u8)
    requires { HasRoom out.old 25 }
    ensures { Wrote out.old (decimal a ++ (bytes " -> " ++ (decimal b ++ bytes " "))) out.new × (out.new.end ≤ out.old.end + 25) }
{
    number(out, a as u32);
    out.put(b" -> ");
    number(out, b as u32);
    out.put(b" ");
}

// A message in words.
fn put_message(out: &mut TextBuffer, m: Message)
    requires { HasRoom out.old 96 }
    ensures { Wrote out.old (message_words m) out.new × (out.new.end ≤ out.old.end + 96) }
{
    put_way(out, m.sender, m.receiver);
    put_kind(out, m.kind);
    put_carried(out, m);
    put_numbered(out, b" call", m.call.number);
}

// The line of a message taken out or put in, which w says with blanks around it.
pub fn put_message_line(out: &mut TextBuffer, w: &[u8], m: Message)
    requires { HasRoom out.old (length w.now + 97) }
    ensures { Wrote out.old (w.now ++ (message_words m ++ bytes "\n")) out.new × (out.new.end ≤ out.old.end + length w.now + 97) }
{
    out.put(w);
    put_message(out, m);
    out.put(b"\n");
}

// ── the first line of a step ──

// Event e, which is v, and a space between them.
fn put_event_number(out: &mut TextBuffer, e: u32, v: Event)
    requires { HasRoom out.old 27 }
    ensures { Wrote out.old (decimal e ++ (bytes " " ++ event_text v)) out.new × (out.new.end ≤ out.old.end + 27) }
{
    number(out, e);
    out.put(b" ");
    put_event(out, v);
}

// Event e, which is v, was accepted.
pub fn put_accepted(out: &mut TextBuffer, e: u32, v: Event)
    requires { HasRoom out.old 48 }
    ensures { Wrote out.old (accepted_line e v) out.new × (out.new.end ≤ out.old.end + 48) }
{
    put_event_number(out, e, v);
    out.put(b" accepted\n");
}

// Event e, which is v, was refused by r.
pub fn put_refused_step(out: &mut TextBuffer, e: u32, v: Event, r: u8)
    requires { HasRoom out.old 48 }
    ensures { Wrote out.old (refused_step_line e v r) out.new × (out.new.end ≤ out.old.end + 48) }
{
    put_event_number(out, e, v);
    out.put(b" refused");
    field(out, r as u32);
    out.put(b"\n");
}
