// The delimiter.
ghost use Rattle.std.specs.Prelude.{◌≡◌, List, ℕ, ◌+◌};
ghost use Rattle.words.specs.Sizes.{Addressable};
ghost use Rattle.words.specs.declared.Order.{Order};
ghost use Rattle.walk.specs.See.{see};
ghost use Rattle.rules.specs.Rules as R;
ghost use Rattle.records.specs.Says.{head_of, tested};

use rules::{Delimiter, Head, Reason, Refusal};

// The delimiter whose head is h.
pub fn delimiter(h: Head, base: usize) -> Result<(), Refusal>
    requires { Addressable (base + (h.at + 16)) }
    ensures { (o : Order) (b : ℕ) (s : List ℕ) →
        see o b s (base + (h.at + 16)) (R.delimiter (head_of h)) ≡ tested result (base + (h.at + 16)) }
{
    if h.code != Delimiter::CODE {
        return Err(Refusal(Reason::Code, base + h.at + Head::CODE));
    }
    if h.multiplier != 0 {
        return Err(Refusal(Reason::Multiplier, base + h.at + Head::MULTIPLIER));
    }
    if h.size != 0 {
        return Err(Refusal(Reason::Length, base + h.at));
    }
    if h.serial != 0 {
        return Err(Refusal(Reason::Serial, base + h.at + Head::SERIAL));
    }
    Ok(())
}
