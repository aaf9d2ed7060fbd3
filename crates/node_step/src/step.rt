// What the steps of a table and of a controller read off an event and a reaction: definitions of model's specs/Step as functions.
ghost use Rattle.std.specs.Prelude.{◌≡◌};
ghost use Rattle.model.specs.Step as spec;

use model::{Event, Mark, Message};

// Whose event it is; for deliver and lose, the receiver.
pub fn actor(e: Event) -> u8
    ensures { result ≡ spec.actor e }
{
    match e {
        Event::Crash(i)
        | Event::Recover(i)
        | Event::Check(i)
        | Event::Timeout(i)
        | Event::Tick(i)
        | Event::Expire(i)
        | Event::Finish(i, _) => i,
        Event::Deliver(_, b) | Event::Lose(_, b) => b,
    }
}

pub fn forms(k: Mark) -> bool
    ensures { result ≡ spec.forms k }
{
    k != Mark::Plain
}

pub fn is_calling(o: Option<Message>) -> bool
    ensures { result ≡ spec.is_calling o }
{
    o.is_some_and(|m| m.kind < 6)
}

pub fn is_sending(o: Option<Message>) -> bool
    ensures { result ≡ spec.is_sending o }
{
    o.is_some()
}
