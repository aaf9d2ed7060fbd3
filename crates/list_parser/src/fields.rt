// The fields of a list, written into a lent buffer. The caller sees to the room.
ghost use Rattle.std.specs.Prelude.{◌≡◌, [], ◌∷◌, ◌/◌, ◌%◌, length};
ghost use Rattle.listing.specs.Printing.{HasRoom, Wrote};
ghost use Rattle.list_text.specs.Script.{event_field};

use listing::TextBuffer;
use model::Event;

// How many bytes the field of an event has.
#[tactic(auto, unfolding(list_text::specs::Script::event_field))]
pub fn field_size(e: Event) -> usize
    ensures { result ≡ length (event_field e) }
{
    match e {
        Event::Crash(_) | Event::Recover(_) | Event::Check(_) => 4,
        Event::Timeout(_) | Event::Tick(_) | Event::Expire(_) => 4,
        Event::Finish(_, _) => 6,
        Event::Deliver(_, _) | Event::Lose(_, _) => 5,
    }
}

// The field of a tag with one byte.
pub fn put_one(out: &mut TextBuffer, tag: u8, x: u8)
    requires { HasRoom out.old 4 }
    ensures { Wrote out.old (tag ∷ 0 ∷ 1 ∷ x ∷ []) out.new }
{
    out.put(&[tag, 0, 1, x]);
}

// The field of a tag with two bytes.
fn put_two(out: &mut TextBuffer, tag: u8, x: u8, y: u8)
    requires { HasRoom out.old 5 }
    ensures { Wrote out.old (tag ∷ 0 ∷ 2 ∷ x ∷ y ∷ []) out.new }
{
    out.put(&[tag, 0, 2, x, y]);
}

// The field of a finish.
fn put_finish(out: &mut TextBuffer, x: u8, task: u16)
    requires { HasRoom out.old 6 }
    ensures { Wrote out.old (0x16 ∷ 0 ∷ 3 ∷ x ∷ (task / 256) ∷ (task % 256) ∷ []) out.new }
{
    let [high, low] = task.to_be_bytes();
    out.put(&[0x16, 0, 3, x, high, low]);
}

// The field of an event.
#[tactic(auto, unfolding(list_text::specs::Script::event_field))]
pub fn put_event(out: &mut TextBuffer, e: Event)
    requires { HasRoom out.old (length (event_field e)) }
    ensures { Wrote out.old (event_field e) out.new }
{
    match e {
        Event::Crash(i) => put_one(out, 0x10, i),
        Event::Recover(i) => put_one(out, 0x11, i),
        Event::Check(i) => put_one(out, 0x12, i),
        Event::Timeout(i) => put_one(out, 0x13, i),
        Event::Tick(i) => put_one(out, 0x14, i),
        Event::Expire(i) => put_one(out, 0x15, i),
        Event::Finish(i, t) => put_finish(out, i, t.number),
        Event::Deliver(a, b) => put_two(out, 0x17, a, b),
        Event::Lose(a, b) => put_two(out, 0x18, a, b),
    }
}
