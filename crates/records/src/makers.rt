// Makers' own records.
ghost use Rattle.std.specs.Prelude.{◌≡◌};
ghost use Rattle.rules.specs.Rules as R;
ghost use Rattle.records.specs.Asks.{PartAt};
ghost use Rattle.records.specs.Says.{NextHead};

use crate::head::head_at;
use crate::kinds::admit;
use rules::{Head, Kind, Label, Maker, Refusal};
use words::Order;

pub fn maker_code(n: u32) -> bool
    ensures { result ≡ R.maker_code n }
{
    if n < Maker::FIRST_CODE {
        return false;
    }
    n < Head::LIMIT
}

// The head of the first record from byte `from` on that is no maker's own.
pub fn next_head(
    o: Order,
    label: Label,
    s: &[u8],
    base: usize,
    from: usize,
) -> Result<Head, Refusal>
    requires { PartAt base s.now from }
    ensures { NextHead o label base s.now from result }
{
    let mut p = from;
    // From record to record by their lengths: there is no count.
    loop {
        let h = head_at(o, s, base, p)?;
        if !maker_code(h.code) {
            return Ok(h);
        }
        p = admit(h, base, s.len(), Kind::Maker(label))?;
    }
}
