// The opening of a text, and the events behind it.
ghost use Rattle.std.specs.Prelude.{◌≡◌, ◌||◌, ◌≤◌};
ghost use Rattle.list_text.specs.Words.{is_line_end, is_hash, number_at};
ghost use Rattle.list_text.specs.Script as spec;

use crate::cursor::Cursor;
use crate::words::same_word;
use list_text::{Expected, Opening, Part, Wrong};
use model::{Event, TaskNo};

// Inlined from `part_at` down to the name of an event: with calls a text of ticks took a quarter more instructions.

// The first field's tag by the word; none where it is neither of the two.
// kept: tried, and the proof didn't close: a match on byte strings leaves a goal for each byte at which two words differ
#[tactic(auto, unfolding(list_text::specs::Script::opening_tag, model::specs::Pick::pick))]
fn opening_tag(w: &[u8]) -> Option<u8>
    ensures { result ≡ spec.opening_tag w.now }
{
    if same_word(w, b"cabinets") {
        return Some(0x01);
    }
    if same_word(w, b"stand") {
        return Some(0x02);
    }
    None
}

// What the opening says that starts at c.
#[tactic(auto, using(crate::proofs::Names::own_word), unfolding(list_text::specs::Script::opening_at))]
pub fn opening_at(c: Cursor) -> Opening
    ensures { result ≡ spec.opening_at c.entry.text.now c.entry.at }
{
    let end = c.behind_word();
    let Some(tag) = opening_tag(&c.text[c.at..end.at]) else {
        return Err(Wrong {
            at: c.at,
            expected: Expected::Opening,
        });
    };
    let (n, next) = end.number_up_to(255).map_err(|p| Wrong {
        at: p,
        expected: Expected::Number,
    })?;
    Ok((tag, n as u8, next))
}

// The tag of the event that a word names; none where it names none. Tags are bytes of the list, as `event_of` of event_list/specs/Format takes them.
// kept: ifs and no match, tried, and the proof didn't close. And an enum of the names is no plainer: the definitions take the tag (`numbers_at`, `with_one`, `with_two`, `with_second`, `event_of_two`), so that each clause below would say `tag_of name` for it.
#[tactic(auto, unfolding(list_text::specs::Script::event_named, model::specs::Pick::pick))]
#[inline(always)]
fn event_named(w: &[u8]) -> Option<u8>
    ensures { result ≡ spec.event_named w.now }
{
    if same_word(w, b"crash") {
        return Some(0x10);
    }
    if same_word(w, b"recover") {
        return Some(0x11);
    }
    if same_word(w, b"check") {
        return Some(0x12);
    }
    if same_word(w, b"timeout") {
        return Some(0x13);
    }
    if same_word(w, b"tick") {
        return Some(0x14);
    }
    if same_word(w, b"expire") {
        return Some(0x15);
    }
    if same_word(w, b"finish") {
        return Some(0x16);
    }
    if same_word(w, b"deliver") {
        return Some(0x17);
    }
    if same_word(w, b"lose") {
        return Some(0x18);
    }
    None
}

// The largest second number of an event with a tag.
#[tactic(auto, unfolding(list_text::specs::Script::second_most, model::specs::Pick::pick))]
fn second_most(tag: u8) -> u32
    ensures { (result ≡ spec.second_most tag) × (result ≤ 65535) }
{
    if tag == 0x16 {
        return 65535;
    }
    255
}

#[tactic(auto, unfolding(list_text::specs::Script::second_expected, model::specs::Pick::pick))]
fn second_expected(tag: u8) -> Expected
    ensures { result ≡ spec.second_expected tag }
{
    if tag == 0x16 {
        return Expected::Task;
    }
    Expected::Number
}

// The event with a tag and its numbers. One with one number leaves y aside.
#[tactic(auto, unfolding(list_text::specs::Script::second_most, list_text::specs::Script::event_of_two, event_list::specs::Format::event_of, model::specs::Pick::pick))]
fn event_of(tag: u8, x: u8, y: u32) -> Event
    requires { y ≤ spec.second_most tag }
    ensures { result ≡ spec.event_of_two tag x y }
{
    match tag {
        0x10 => Event::Crash(x),
        0x11 => Event::Recover(x),
        0x12 => Event::Check(x),
        0x13 => Event::Timeout(x),
        0x14 => Event::Tick(x),
        0x15 => Event::Expire(x),
        0x16 => Event::Finish(x, TaskNo { number: y as u16 }),
        0x17 => Event::Deliver(x, y as u8),
        _ => Event::Lose(x, y as u8),
    }
}

// An event with one number, which is still to be read.
#[tactic(auto, using(crate::proofs::Names::one_number))]
fn one_at(tag: u8, c: Cursor) -> Part
    ensures { result ≡ spec.with_one tag (number_at 255 c.entry.text.now c.entry.at) }
{
    let (x, next) = c.number_up_to(255).map_err(|p| Wrong {
        at: p,
        expected: Expected::Number,
    })?;
    Ok(Some((event_of(tag, x as u8, 0), next)))
}

// An event with two numbers, of which the second is still to be read.
fn second_at(tag: u8, x: u8, c: Cursor) -> Part
    ensures { result ≡ spec.with_second tag x (number_at (spec.second_most tag) c.entry.text.now c.entry.at) }
{
    let (y, next) = c.number_up_to(second_most(tag)).map_err(|p| Wrong {
        at: p,
        expected: second_expected(tag),
    })?;
    Ok(Some((event_of(tag, x, y), next)))
}

// An event with two numbers, which are still to be read.
fn two_at(tag: u8, c: Cursor) -> Part
    ensures { result ≡ spec.with_two tag c.entry.text.now (number_at 255 c.entry.text.now c.entry.at) }
{
    let (x, next) = c.number_up_to(255).map_err(|p| Wrong {
        at: p,
        expected: Expected::Number,
    })?;
    second_at(tag, x as u8, c.to(next))
}

// The numbers of an event with a tag, from c on.
#[tactic(auto, unfolding(list_text::specs::Script::numbers_at, model::specs::Pick::pick))]
#[inline(always)]
fn numbers_at(tag: u8, c: Cursor) -> Part
    ensures { result ≡ spec.numbers_at tag c.entry.text.now c.entry.at }
{
    if tag <= 0x15 {
        return one_at(tag, c);
    }
    two_at(tag, c)
}

// The event that starts at c.
#[tactic(auto, using(crate::proofs::Names::own_word), unfolding(list_text::specs::Script::event_at))]
#[inline(always)]
fn event_at(c: Cursor) -> Part
    ensures { result ≡ spec.event_at c.entry.text.now c.entry.at }
{
    let end = c.behind_word();
    match event_named(&c.text[c.at..end.at]) {
        Some(tag) => numbers_at(tag, end),
        None => Err(Wrong {
            at: c.at,
            expected: Expected::Name,
        }),
    }
}

// Behind a line end or a comment: the next event, or the text's end.
#[tactic(auto, unfolding(list_text::specs::Script::event_from, model::specs::Pick::pick))]
#[inline(always)]
fn event_from(c: Cursor) -> Part
    ensures { result ≡ spec.event_from c.entry.text.now c.entry.at }
{
    if c.text.len() <= c.at {
        return Ok(None);
    }
    event_at(c)
}

// Whether b ends a line's part: a line end, or the start of a comment.
fn ends_line(b: u8) -> bool
    ensures { result ≡ (is_line_end b || is_hash b) }
{
    matches!(b, b'\n' | b'#')
}

// What follows where the first byte behind the last part, blanks left out, stands at c.
#[tactic(auto, unfolding(list_text::specs::Script::separated_at, model::specs::Pick::pick))]
#[inline(always)]
fn separated_at(c: Cursor) -> Part
    ensures { result ≡ spec.separated_at c.entry.text.now c.entry.at }
{
    if c.text.len() <= c.at {
        return Ok(None);
    }
    let b = c.text[c.at];
    if b == b',' {
        return event_at(c.to(c.at + 1).past_blanks());
    }
    if ends_line(b) {
        return event_from(c.past_skipped());
    }
    Err(Wrong {
        at: c.at,
        expected: Expected::Separator,
    })
}

// What follows behind the part that ends at c.
#[tactic(auto, unfolding(list_text::specs::Script::part_at))]
#[inline(always)]
pub fn part_at(c: Cursor) -> Part
    ensures { result ≡ spec.part_at c.entry.text.now c.entry.at }
{
    separated_at(c.past_blanks())
}
