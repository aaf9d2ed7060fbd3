// A lent buffer that fills from its start: bytes and numbers in decimal are written into its free end.
ghost use Rattle.std.specs.Prelude.{List, ℕ, ◌≡◌, ◌∷◌, ◌+◌, ◌≤◌, length};
ghost use Rattle.listing.specs.Decimal.{decimal};
ghost use Rattle.listing.specs.Parts.{padded};
ghost use Rattle.listing.specs.Printing.{Appended, Wrote, HasRoom, LinesIn, Printed};

use crate::NoRoom;

// A lent buffer, and how many bytes at its start are written. Where that is more than it has, no line has room.
#[derive(Drop)]
pub struct TextBuffer<'a> {
    pub bytes: &'a mut [u8],
    pub end: usize,
}

// How many digits x has.
#[tactic(auto, using(crate::proofs::Decimal::decimal_one, crate::proofs::Decimal::decimal_count))]
pub fn digit_count(x: u64) -> usize
    ensures { (result ≡ length (decimal x)) × (result ≤ 20) }
{
    if x < 10 {
        return 1;
    }
    x.ilog10() as usize + 1
}

// The last digits of x, as many as d has places.
fn digits_into(d: &mut [u8], x: u64)
    ensures { d.new ≡ padded (length d.old) x }
{
    let mut y = x;
    for p in (0..d.len()).rev() {
        d[p] = b'0' + (y % 10) as u8;
        y = y / 10;
    }
}

// The bytes of w into out from at on: the offset behind them. The caller sees to the room, here and below.
// kept: a slice and an offset, here and below, as `write_row` writes a whole line into the free end before the buffer's end moves.
pub fn put_bytes(out: &mut [u8], at: usize, w: &[u8]) -> usize
    requires { at + length w.now ≤ length out.old }
    ensures { Appended out.old at w.now out.new result }
{
    let end = at + w.len();
    out[at..end].copy_from_slice(w);
    end
}

// x in decimal.
pub fn put_digits(out: &mut [u8], at: usize, x: u64) -> usize
    requires { at + length (decimal x) ≤ length out.old }
    ensures { Appended out.old at (decimal x) out.new result }
{
    let end = at + digit_count(x);
    digits_into(&mut out[at..end], x);
    end
}

// A space and x in decimal.
pub fn put_spaced(out: &mut [u8], at: usize, x: u64) -> usize
    requires { at + length (32 ∷ decimal x) ≤ length out.old }
    ensures { Appended out.old at (32 ∷ decimal x) out.new result }
{
    out[at] = b' ';
    put_digits(out, at + 1, x)
}

impl TextBuffer<'_> {
    // The bytes of w.
    pub fn put(&mut self, w: &[u8])
        requires { HasRoom self.old (length w.now) }
        ensures { Wrote self.old w.now self.new }
    {
        self.end = put_bytes(self.bytes, self.end, w);
    }

    // x in decimal.
    pub fn put_number(&mut self, x: u64)
        requires { HasRoom self.old (length (decimal x)) }
        ensures { Wrote self.old (decimal x) self.new }
    {
        self.end = put_digits(self.bytes, self.end, x);
    }

    // A space and x in decimal.
    pub fn put_field(&mut self, x: u64)
        requires { HasRoom self.old (length (32 ∷ decimal x)) }
        ensures { Wrote self.old (32 ∷ decimal x) self.new }
    {
        self.end = put_spaced(self.bytes, self.end, x);
    }
}

// What `lines` writes into all of out: how long it is, or refusal 15.
pub fn print_into<F: FnOnce(&mut TextBuffer) -> Result<(), NoRoom>>(
    out: &mut [u8],
    lines: F,
) -> Result<usize, NoRoom>
    requires { F.IsAlwaysCallable lines }
    ensures { (xs : List (List ℕ)) → ((b : _) (r : _) (o : _) → F.post lines b r o → LinesIn b.now xs r o.now) → Printed xs out.old out.new result }
{
    let mut text = TextBuffer { bytes: out, end: 0 };
    lines(&mut text)?;
    Ok(text.end)
}
