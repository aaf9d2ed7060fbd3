// One node: the definitions of bully_model's specs/Node as functions.
ghost use Rattle.std.specs.Prelude.{◌≡◌};
ghost use Rattle.bully_model.specs.Node as spec;

use bully_model::{Node, Place};

// kept: here and below a function for each definition of bully_model's specs/Node, by its name; each is one `matches!`.
pub fn is_idle(p: Place) -> bool
    ensures { result ≡ spec.is_idle p }
{
    matches!(p, Place::Idle)
}

pub fn is_point(p: Place) -> bool
    ensures { result ≡ spec.is_point p }
{
    matches!(p, Place::Point)
}

pub fn has_call(p: Place) -> bool
    ensures { result ≡ spec.has_call p }
{
    !matches!(p, Place::Idle | Place::Point)
}

pub fn with_place(c: Node, p: Place) -> Node
    ensures { result ≡ spec.with_place c p }
{
    Node { place: p, ..c }
}
