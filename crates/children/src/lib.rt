// The records that stand one after the other: the recordings of a file, and the records directly in a recording's body.
#![tactic(auto)]

ghost use Rattle.records.specs.Asks.{PartAt};
ghost use Rattle.children.specs.Children.{Visits};

use rules::{Delimiter, Head, Kind};
use words::Order;

// What stands at byte p of a file, or of a recording's body, which stands at `base`.
pub fn record_at(o: Order, s: &[u8], base: usize, p: usize) -> Option<(Head, usize)>
    requires { PartAt base s.now p }
    ensures { Visits o base s.now p result }
{
    let h = records::head::head_at(o, s, base, p).ok()?;
    if h.code == Delimiter::CODE {
        return None;
    }
    let end = records::kinds::admit(h, base, s.len(), Kind::Any).ok()?;
    Some((h, end))
}
