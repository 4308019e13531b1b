// A record's first 16 bytes, and its length.
ghost use Rattle.std.specs.Prelude.{◌≡◌, ◌+◌, ◌<◌};
ghost use Rattle.rules.specs.Rules as R;
ghost use Rattle.records.specs.Asks.{PartAt, Spanned};
ghost use Rattle.records.specs.Says.{HeadAt};

use rules::{Head, Reason, Refusal};
use words::{Order, number};

// The head of the record at byte p of the part s, which stands at `base` in the file and ends where the record's parent ends.
pub fn head_at(o: Order, s: &[u8], base: usize, p: usize) -> Result<Head, Refusal>
    requires { PartAt base s.now p }
    ensures { HeadAt o base s.now p result }
{
    if s.len() < p + Head::LENGTH {
        return Err(Refusal(Reason::Length, base + p));
    }
    let size = number::<4>(o, s, p);
    let code = number::<4>(o, s, p + Head::CODE);
    let serial = number::<4>(o, s, p + Head::SERIAL);
    let multiplier = number::<4>(o, s, p + Head::MULTIPLIER);
    Ok(Head {
        at: p,
        size,
        code,
        serial,
        multiplier,
    })
}

// A record's length.
pub fn span(h: Head) -> usize
    requires { Spanned h }
    ensures { (result ≡ R.length_of h.size h.multiplier) × (result < 274877906945) }
{
    if h.multiplier == 0 {
        return h.size as usize;
    }
    h.size as usize * h.multiplier as usize
}
