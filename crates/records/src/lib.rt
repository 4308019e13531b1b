// Judges each kind of record by the rules of crate `rules`. Each answer is that of the rules' walk, by the contracts.
#![tactic(auto)]

pub mod basic;
pub mod channels;
pub mod delimiter;
pub mod frames;
pub mod head;
pub mod items;
pub mod kinds;
pub mod makers;
pub mod writing;

ghost use Rattle.std.specs.Prelude.{◌≡◌, ◌+◌, ◌-◌, ◌<◌};
ghost use Rattle.words.specs.declared.Order.{Order};
ghost use Rattle.words.specs.Numbers.{number_at};
ghost use Rattle.walk.specs.See.{see};
ghost use Rattle.rules.specs.Rules as R;
ghost use Rattle.records.specs.Asks.{BytesIn, FieldIn};
ghost use Rattle.records.specs.Says.{tested};

use rules::{Head, Reason, Refusal};
use words::{Order, first_nonzero, number};

pub fn between(low: u32, high: u32, n: u32) -> bool
    ensures { result ≡ R.between low high n }
{
    if n < low {
        return false;
    }
    n <= high
}

// n - m, and 0 where m is more.
pub fn less(n: usize, m: usize) -> usize
    ensures { result ≡ n - m }
{
    n.saturating_sub(m)
}

// Padding of n bytes is shorter than the multiplier, and none where that is 0.
pub fn pad_ok(multiplier: u32, n: usize) -> bool
    ensures { result ≡ R.padded multiplier n }
{
    if multiplier == 0 {
        return n < 1;
    }
    n < multiplier as usize
}

// The field of four bytes at an offset of a record, whose body is the part s: it starts 16 bytes into the record.
pub fn field(o: Order, s: &[u8], offset: usize) -> u32
    requires { FieldIn s.now offset 4 }
    ensures { (result ≡ number_at o 4 s.now (offset - 16)) × (result < 4294967296) }
{
    number::<4>(o, s, offset - Head::LENGTH)
}

// The field of two bytes at an offset of a record.
pub fn short_field(o: Order, s: &[u8], offset: usize) -> u32
    requires { FieldIn s.now offset 2 }
    ensures { (result ≡ number_at o 2 s.now (offset - 16)) × (result < 65536) }
{
    number::<2>(o, s, offset - Head::LENGTH)
}

// The bytes of s from `from` up to `to` are zero.
pub fn padding(s: &[u8], base: usize, from: usize, to: usize) -> Result<(), Refusal>
    requires { BytesIn base s.now from to }
    ensures { (o : Order) → see o base s.now (base + from) (R.padding (to - from)) ≡ tested result (base + to) }
{
    let pad = &s[from..to];
    let zeros = first_nonzero(pad);
    if zeros < pad.len() {
        return Err(Refusal(Reason::Padding, base + from + zeros));
    }
    Ok(())
}

// Whether two byte strings are the same.
pub fn same(a: &[u8], b: &[u8]) -> bool
    ensures { result ≡ R.same_bytes a.now b.now }
{
    a == b
}
