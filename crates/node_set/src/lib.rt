// Sets of nodes as 16-bit masks: bit i - 1 is node i. What each function answers is in specs/NodeSet, and the laws are in specs/Claims.
#![tactic(auto)]

ghost use Rattle.std.specs.Prelude.{◌≡◌, ◌≤◌};
ghost use Rattle.node_set.specs.NodeSet as spec;

// kept: a node is a u8 with a clause, here and in node_step and bully_machine: an event or a table may name any number, 0 for none among them, and what is outside 1 to 16 is refused with a
// number. A type for 1 to 16 would be made anew from the u8 at each call. So with n, how many nodes there are.
// The set of node `i` alone.
fn bit_of(i: u8) -> u16
    requires { (1 ≤ i) × (i ≤ 16) }
    ensures { result ≡ spec.bit_of i }
{
    1u16 << (i - 1)
}

// Whether node `i` is in `s`.
pub fn contains(s: u16, i: u8) -> bool
    requires { (1 ≤ i) × (i ≤ 16) }
    ensures { result ≡ spec.has s i }
{
    (s >> (i - 1)) % 2 == 1
}

// `s` and node `i`.
pub fn insert(s: u16, i: u8) -> u16
    requires { (1 ≤ i) × (i ≤ 16) }
    ensures { result ≡ spec.with s i }
{
    s | bit_of(i)
}

// `s` but for node `i`.
pub fn remove(s: u16, i: u8) -> u16
    requires { (1 ≤ i) × (i ≤ 16) }
    ensures { result ≡ spec.without s i }
{
    s & !bit_of(i)
}

// The node of `s` with the highest number; 0 for the empty set.
// kept: no Option, since `highest` of specs/NodeSet is 0 there, and `next` of model's specs/Procedures goes by it.
pub fn highest(s: u16) -> u8
    ensures { result ≡ spec.highest s }
{
    16 - (s.leading_zeros() as u8)
}

// How many nodes `s` has.
pub fn count(s: u16) -> u32
    ensures { result ≡ spec.count s }
{
    s.count_ones()
}

// All nodes, 1 to `n`.
pub fn up_to(n: u8) -> u16
    requires { n ≤ 16 }
    ensures { result ≡ spec.up_to n }
{
    ((1u32 << n) - 1) as u16
}

// Whether `s` has no node above `n`.
pub fn is_within(n: u8, s: u16) -> bool
    requires { n ≤ 16 }
    ensures { result ≡ spec.within n s }
{
    (s as u32) < (1u32 << n)
}
