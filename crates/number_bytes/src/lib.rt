// Numbers as bytes, high byte first, and what else the byte forms of both machines' tables share. Reading takes any bytes: past their end stand zeros. Writing
// leaves out what is past the end.
// What is read and written is in specs/Bytes.
#![tactic(auto)]

ghost use Rattle.std.specs.Prelude.{◌≡◌, ℕ, ◌+◌, ◌*◌, ◌^◌, ◌≤◌, ◌<◌, List, get_or, length, drop, set};
ghost use Rattle.number_bytes.specs.Bytes as spec;

use model::Status;
pub use predicates::status_number;

// ── reading ──

// The byte at k, or 0 past the end.
// kept: no Option, since zeros stand past the end, as `number` of specs/Bytes has it.
pub fn byte(s: &[u8], k: usize) -> u8
    ensures { result ≡ get_or s.now k 0 }
{
    if k < s.len() { s[k] } else { 0 }
}

// The number of one byte, of two, of four. The place of its last byte has to be a usize.
// kept: one function for each width, here and in writing. The library has no trait for from_be_bytes, and one of our own would have these bodies as its impls.
pub fn one(s: &[u8], k: usize) -> u8
    ensures { result ≡ spec.number 1 s.now k }
{
    byte(s, k)
}

#[tactic(auto, using(crate::proofs::Numbers::two_is))]
pub fn two(s: &[u8], k: usize) -> u16
    requires { k + 1 < 2 ^ 64 }
    ensures { result ≡ spec.number 2 s.now k }
{
    u16::from_be_bytes([byte(s, k), byte(s, k + 1)])
}

#[tactic(auto, using(crate::proofs::Numbers::four_is))]
pub fn four(s: &[u8], k: usize) -> u32
    requires { k + 3 < 2 ^ 64 }
    ensures { result ≡ spec.number 4 s.now k }
{
    u32::from_be_bytes([byte(s, k), byte(s, k + 1), byte(s, k + 2), byte(s, k + 3)])
}

// What of s stands from at on: nothing, past the end.
pub fn from(s: &[u8], at: usize) -> &[u8]
    ensures { result.now ≡ drop at s.now }
{
    &s[at.min(s.len())..]
}

// The status of any number.
// kept: no From, since that would hide that the number counts modulo 4.
#[tactic(auto, unfolding(crate::specs::Bytes::status_of, model::specs::Pick::pick))]
pub fn status_of(x: u8) -> Status
    ensures { result ≡ spec.status_of x }
{
    match x % 4 {
        0 => Status::Down,
        1 => Status::Election,
        2 => Status::Reorganization,
        _ => Status::Normal,
    }
}

// ── writing ──

// kept: out and a place, here and in the byte forms, and no buffer with its end: a form's bytes stand at fixed places, and one past the end is not written.

// The byte b at a place.
pub fn put(out: &mut [u8], at: usize, b: u8)
    ensures { out.new ≡ set out.old at b }
{
    if at < out.len() {
        out[at] = b;
    }
}

// The bytes of l over those of out from a place on, as many as there is room for. The place behind the last has to be a usize.
pub fn put_bytes(out: &mut [u8], at: usize, l: &[u8])
    requires { at + length l.now ≤ 2 ^ 64 }
    ensures { out.new ≡ spec.written out.old at l.now }
{
    for (i, b) in l.iter().enumerate() {
        put(out, at + i, *b);
    }
}

// A number of one byte, of two, of four, with the same of its last byte.
pub fn put_one(out: &mut [u8], at: usize, x: u8)
    ensures { out.new ≡ spec.written out.old at (spec.bytes 1 x) }
{
    put(out, at, x)
}

#[tactic(auto, using(crate::proofs::Numbers::two_bytes))]
pub fn put_two(out: &mut [u8], at: usize, x: u16)
    requires { at + 1 < 2 ^ 64 }
    ensures { out.new ≡ spec.written out.old at (spec.bytes 2 x) }
{
    put_bytes(out, at, &x.to_be_bytes())
}

#[tactic(auto, using(crate::proofs::Numbers::four_bytes))]
pub fn put_four(out: &mut [u8], at: usize, x: u32)
    requires { at + 3 < 2 ^ 64 }
    ensures { out.new ≡ spec.written out.old at (spec.bytes 4 x) }
{
    put_bytes(out, at, &x.to_be_bytes())
}

pub fn yes_number(yes: bool) -> u8
    ensures { result ≡ spec.yes_number yes }
{
    u8::from(yes)
}

// ── records of one size, one after another ──

// The form of a T in SIZE bytes: how it is read from the start of any bytes, and which bytes are written for it.
pub trait Form<T: Copy> {
    ghost SIZE: { ℕ };

    ghost of_bytes: { List ℕ → T };

    ghost bytes: { T → List ℕ };

    const SIZE: usize;

    fn read(s: &[u8]) -> T
        ensures { result ≡ of_bytes s.now };

    fn put(out: &mut [u8], at: usize, x: T)
        requires { at ≤ 2 ^ 32 }
        ensures { out.new ≡ spec.written out.old at (bytes x) };

    ghost long: { (x : T) → length (bytes x) ≡ SIZE };
}

// The first K records of s.
pub fn read_many<F: Form<T>, T: Copy, const K: usize>(s: &[u8]) -> [T; K]
    requires { K * F.SIZE < 2 ^ 64 }
    ensures { result ≡ spec.many F.of_bytes F.SIZE K s.now }
{
    std::array::from_fn(|i| F::read(from(s, i * F::SIZE)))
}

// The bytes of all records over those of out from a place on, as many as there is room for.
pub fn put_many<F: Form<T>, T: Copy>(out: &mut [u8], at: usize, xs: &[T])
    requires { at + length xs.now * F.SIZE ≤ 2 ^ 32 }
    ensures { out.new ≡ spec.written out.old at (spec.all F.bytes xs.now) }
{
    for (i, x) in xs.iter().enumerate() {
        F::put(out, at + i * F::SIZE, *x);
    }
}
