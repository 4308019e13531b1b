// Record 100.
ghost use Rattle.std.specs.Prelude.{◌≡◌, ◌+◌, ◌-◌, length};
ghost use Rattle.walk.specs.See.{Verdict, see, over};
ghost use Rattle.rules.specs.Rules as R;
ghost use Rattle.records.specs.Asks.{PartAt, BodyOf};
ghost use Rattle.records.specs.Says.{basic_of, basiced, resumed, counts_tested, date_tested, time_tested};

use crate::kinds::open;
use crate::{between, field};
use dates::{WrongDate, judge_date};
use rules::{Basic, Channels, Head, Kind, Reason, Refusal};
use words::Order;

fn mains_ok(n: u32) -> bool
    ensures { result ≡ R.is_mains n }
{
    if n == 0 {
        return true;
    }
    if n == 50 {
        return true;
    }
    n == 60
}

// The tests of the fields of the record 100 at `at`, whose body is the part s.
fn counts_ok(o: Order, s: &[u8], at: usize) -> Result<(), Refusal>
    requires { BodyOf 112 at s.now }
    ensures { (K : Verdict R.Basic) → counts_tested o s.now at K ≡ resumed result K }
{
    if 1 != field(o, s, Basic::FORM) {
        return Err(Refusal(Reason::Value, at + Basic::FORM));
    }
    if !between(1, Channels::MOST, field(o, s, Basic::CHANNELS)) {
        return Err(Refusal(Reason::Value, at + Basic::CHANNELS));
    }
    if !between(1, Basic::MOST_FRAMES, field(o, s, Basic::FRAMES)) {
        return Err(Refusal(Reason::Value, at + Basic::FRAMES));
    }
    Ok(())
}

fn date_ok(o: Order, s: &[u8], at: usize) -> Result<(), Refusal>
    requires { BodyOf 112 at s.now }
    ensures { (K : Verdict R.Basic) → date_tested o s.now at K ≡ resumed result K }
{
    let year = field(o, s, Basic::YEAR);
    let month = field(o, s, Basic::MONTH);
    let day = field(o, s, Basic::DAY);
    match judge_date(year, month, day) {
        Ok(()) => Ok(()),
        Err(WrongDate::Year) => Err(Refusal(Reason::Value, at + Basic::YEAR)),
        Err(WrongDate::Month) => Err(Refusal(Reason::Value, at + Basic::MONTH)),
        Err(WrongDate::Day) => Err(Refusal(Reason::Value, at + Basic::DAY)),
    }
}

fn time_ok(o: Order, s: &[u8], at: usize) -> Result<(), Refusal>
    requires { BodyOf 112 at s.now }
    ensures { (K : Verdict R.Basic) → time_tested o s.now at K ≡ resumed result K }
{
    if 23 < field(o, s, Basic::HOUR) {
        return Err(Refusal(Reason::Value, at + Basic::HOUR));
    }
    if 59 < field(o, s, Basic::MINUTE) {
        return Err(Refusal(Reason::Value, at + Basic::MINUTE));
    }
    if 59 < field(o, s, Basic::SECOND) {
        return Err(Refusal(Reason::Value, at + Basic::SECOND));
    }
    Ok(())
}

// The body of the record 100 at `at`: the part of the file that starts 16 bytes into it.
fn basic_body(o: Order, s: &[u8], at: usize) -> Result<Basic, Refusal>
    requires { BodyOf 112 at s.now }
    ensures { over basic_of (see o (at + 16) s.now (at + 16) R.basic_body) ≡ basiced at result }
{
    counts_ok(o, s, at)?;
    date_ok(o, s, at)?;
    time_ok(o, s, at)?;
    if !mains_ok(field(o, s, Basic::MAINS)) {
        return Err(Refusal(Reason::Value, at + Basic::MAINS));
    }
    Ok(Basic {
        channels: field(o, s, Basic::CHANNELS),
        frames: field(o, s, Basic::FRAMES),
    })
}

// The record 100 at byte p of the part s.
pub fn basic_at(o: Order, s: &[u8], base: usize, p: usize) -> Result<Basic, Refusal>
    requires { PartAt base s.now p }
    ensures { over basic_of (see o base s.now (base + p) (R.basic (length s.now - p))) ≡ basiced (base + p) result }
{
    let (_, end) = open(o, s, base, p, Kind::Basic)?;
    let body = &s[p + Head::LENGTH..end];
    basic_body(o, body, base + p)
}
