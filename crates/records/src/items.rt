// Records 130 and 200.
ghost use Rattle.std.specs.Prelude.{◌≡◌, ◌+◌, ◌-◌, length};
ghost use Rattle.walk.specs.See.{see, ends};
ghost use Rattle.rules.specs.Rules as R;
ghost use Rattle.rules.specs.Rules.{items_body};
ghost use Rattle.records.specs.Asks.{PartAt, HeadIn, BodyOf};
ghost use Rattle.records.specs.Says.{head_of, Beyond, ok_of, tested, StepOver};

use crate::kinds::admit;
use crate::{between, field};
use rules::{Head, Item, Items, Kind, Reason, Refusal};
use words::{Order, number};

// The records of items: 130 and 200.
#[derive(Clone, Copy)]
pub enum Holder {
    Patient,
    Event,
}

const KEYWORDS: [u32; 5] = [0, 1, 201, 210, 220];

fn keyword(x: u32) -> bool
    ensures { result ≡ R.is_in x R.keywords }
{
    KEYWORDS.contains(&x)
}

fn code_ok(k: Holder, x: u32) -> bool
    ensures { result ≡ ok_of k x }
{
    match k {
        Holder::Patient => {
            if keyword(x) {
                return true;
            }
            if between(11, 14, x) {
                return true;
            }
            if between(21, 26, x) {
                return true;
            }
            if between(101, 107, x) {
                return true;
            }
            between(301, 399, x)
        }
        Holder::Event => {
            if x == 0 {
                return true;
            }
            if !between(4096, 65535, x) {
                return false;
            }
            x / 4096 % 2 == 1
        }
    }
}

// The item at byte p of the part s: where the next one starts.
fn item_at(o: Order, k: Holder, s: &[u8], base: usize, p: usize) -> Result<usize, Refusal>
    requires { PartAt base s.now p }
    ensures { StepOver o base s.now p (R.item (ok_of k) (length s.now - p)) (Beyond p (length s.now)) result }
{
    let n = s.len();
    if n < p + Item::LEAST {
        return Err(Refusal(Reason::Length, base + p));
    }
    let size = number::<4>(o, s, p) as usize;
    if size < Item::LEAST {
        return Err(Refusal(Reason::Length, base + p));
    }
    if Item::LIMIT <= size {
        return Err(Refusal(Reason::Length, base + p));
    }
    if n < p + size {
        return Err(Refusal(Reason::Length, base + p));
    }
    let code = number::<4>(o, s, p + Item::CODE);
    if code_ok(k, code) {
        return Ok(p + size);
    }
    Err(Refusal(Reason::Value, base + p + Item::CODE))
}

// So many items from byte `from` of the part s on: where they end.
fn items_from(
    o: Order,
    k: Holder,
    s: &[u8],
    base: usize,
    from: usize,
    count: u32,
) -> Result<usize, Refusal>
    requires { PartAt base s.now from }
    ensures { StepOver o base s.now from
        (R.item_list (ok_of k) count (length s.now - from)) (Beyond from (length s.now)) result }
{
    let mut p = from;
    for i in 0..count {
        p = item_at(o, k, s, base, p)?;
    }
    Ok(p)
}

// The body of the record 130 or 200 at `at`.
fn items_body(o: Order, k: Holder, s: &[u8], at: usize) -> Result<(), Refusal>
    requires { BodyOf 8 at s.now }
    ensures { ends (see o (at + 16) s.now (at + 16) (items_body (ok_of k) (16 + length s.now)))
        ≡ tested result (at + (16 + length s.now)) }
{
    let count = field(o, s, Items::COUNT);
    if Items::MOST < count {
        return Err(Refusal(Reason::Value, at + Items::COUNT));
    }
    let q = items_from(o, k, s, at + Head::LENGTH, Items::BODY_FIRST, count)?;
    if q != s.len() {
        return Err(Refusal(Reason::Disagreement, at + Items::COUNT));
    }
    Ok(())
}

// The rest of the record 130 or 200 whose head is h: where it stops.
pub fn items_at(o: Order, k: Holder, s: &[u8], base: usize, h: Head) -> Result<usize, Refusal>
    requires { HeadIn base s.now h }
    ensures { StepOver o base s.now (h.at + 16)
        (R.items (ok_of k) (length s.now - h.at) (head_of h)) (Beyond (h.at + 24) (length s.now)) result }
{
    let end = admit(h, base, s.len(), Kind::Items(h.code))?;
    let p = h.at;
    let body = &s[p + Head::LENGTH..end];
    items_body(o, k, body, base + p)?;
    Ok(end)
}
