// The same with the driver (02, T-09): turns made one after another, and its claim cited for the table that comes out.
ghost use Rattle.std.specs.Prelude.{◌≡◌};
ghost use Rattle.round.specs.Order.{round_size};
ghost use Rattle.client.specs.Rounded.{Rounded};

use model::Table;
use round::Place;

// How many pairs the round of n nodes has.
fn pairs_of(n: u8) -> u16
    ensures { result ≡ round_size n }
{
    n as u16 * (n as u16).saturating_sub(1)
}

// A whole round of turns, the first at p. From a table in range and a pair of the round it delivers or loses the oldest message of each pair that has one.
pub fn whole_round(t: Table, p: Place) -> Table
    ensures { Rounded t p result }
{
    let mut u = t;
    let mut q = p;
    for _ in 0..pairs_of(t.n) {
        let o = driver::turn(u, q);
        u = o.table;
        q = o.place;
    }
    u
}
