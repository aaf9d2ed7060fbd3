// The text of an event, written into a lent buffer. The caller sees to the room.
ghost use Rattle.std.specs.Prelude.{[], ◌∷◌, ◌++◌, ◌+◌, ◌≤◌, length};
ghost use Rattle.listing.specs.Printing.{HasRoom, Wrote};
ghost use Rattle.short_lists_text.specs.Text.{spaced, event_text};

use listing::TextBuffer;
use model::Event;

// Inlined, here and below: a buffer that is handed on keeps its end in memory, and a list as text then took half as long again in the archive.

// A name and a number behind it.
#[tactic(auto, using(short_lists_text::proofs::Spaced::one_long))]
#[inline(always)]
fn put_one(out: &mut TextBuffer, w: &[u8], i: u8)
    requires { HasRoom out.old (length w.now + length (spaced (i ∷ []))) }
    ensures { Wrote out.old (w.now ++ spaced (i ∷ [])) out.new }
{
    out.put(w);
    out.put_field(i as u64);
}

// A name and two numbers behind it.
#[tactic(auto, using(short_lists_text::proofs::Spaced::two_long))]
#[inline(always)]
fn put_two(out: &mut TextBuffer, w: &[u8], i: u8, x: u16)
    requires { HasRoom out.old (length w.now + length (spaced (i ∷ x ∷ []))) }
    ensures { Wrote out.old (w.now ++ spaced (i ∷ x ∷ [])) out.new }
{
    put_one(out, w, i);
    out.put_field(x as u64);
}

// The event's name and numbers.
#[tactic(auto, using(short_lists_text::proofs::Spaced::one_short, short_lists_text::proofs::Spaced::two_short, short_lists_text::proofs::Spaced::task_short), unfolding(short_lists_text::specs::Text::event_text, short_lists_text::specs::Text::name_of))]
#[inline(always)]
pub fn put_event(out: &mut TextBuffer, e: Event)
    requires { HasRoom out.old 16 }
    ensures { Wrote out.old (event_text e) out.new × (out.new.end ≤ out.old.end + 16) }
{
    match e {
        Event::Crash(i) => put_one(out, b"crash", i),
        Event::Recover(i) => put_one(out, b"recover", i),
        Event::Check(i) => put_one(out, b"check", i),
        Event::Timeout(i) => put_one(out, b"timeout", i),
        Event::Tick(i) => put_one(out, b"tick", i),
        Event::Expire(i) => put_one(out, b"expire", i),
        Event::Finish(i, t) => put_two(out, b"finish", i, t.number),
        Event::Deliver(a, b) => put_two(out, b"deliver", a, b as u16),
        Event::Lose(a, b) => put_two(out, b"lose", a, b as u16),
    }
}
