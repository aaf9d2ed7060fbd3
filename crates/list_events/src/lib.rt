// The events of which short lists are made, as code: the test of an input of two bytes, the events by their places in the alphabet, and the text of an event.
// What the alphabet and the text of an event are, is in crate short_lists_text; the alphabet by places, in specs/.
#![tactic(auto)]

mod alphabet;
mod text;

ghost use Rattle.std.specs.Prelude.{◌≡◌};
ghost use Rattle.short_lists_text.specs.Text.{fits_to};

pub use alphabet::{MOST, event_count, events};
pub use text::put_event;

// Two bytes: n from 1 to 3, and a length from 0 to most.
#[tactic(auto, unfolding(short_lists_text::specs::Text::fits_to))]
pub fn fits(input: &[u8], most: u8) -> bool
    ensures { result ≡ fits_to most input.now }
{
    match input {
        [n, length] => (1 <= *n) & (*n <= 3) & (*length <= most),
        _ => false,
    }
}
