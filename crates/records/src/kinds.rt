// What is fixed about each kind of record, and whether a head meets it.
ghost use Rattle.std.specs.Prelude.{◌≡◌, List, ℕ, ◌+◌, ◌-◌, length};
ghost use Rattle.words.specs.declared.Order.{Order};
ghost use Rattle.walk.specs.See.{see};
ghost use Rattle.rules.specs.Rules as R;
ghost use Rattle.records.specs.Asks.{PartAt, HeadUpTo, HeadOfMost};
ghost use Rattle.records.specs.Says.{OpenAt, head_of, codes_of, fits_of, serial_of, as_rule, loose, rule_of, admitted, Fitting, AdmittedBy};

use crate::head::{head_at, span};
use crate::makers::maker_code;
use crate::{less, pad_ok};
use rules::{
    Basic, Channel, Channels, Frame, Frames, Head, Items, Kind, Maker, Reason, Recording, Refusal,
};
use versions::most_of;
use words::Order;

// The rule on a record's code.
#[derive(Clone, Copy)]
pub enum Code {
    Is(u32),
    Makers,
    Any,
}

// The rule on a record's length; of a frame: the length, and the byte where its samples end.
#[derive(Clone, Copy)]
pub enum Fits {
    Exactly(usize),
    AtLeast(usize),
    Frame(usize, usize),
}

// What is fixed about a kind of record: the code, the largest multiplier, the length and the serial.
#[derive(Clone, Copy)]
pub struct Rule {
    pub code: Code,
    pub most: u32,
    pub fits: Fits,
    pub serial: Option<u32>,
}

// The length n of a record with the head h.
fn length_ok(f: Fits, h: Head, n: usize) -> bool
    ensures { result ≡ fits_of f h.multiplier n }
{
    match f {
        Fits::Exactly(m) => m == n,
        Fits::AtLeast(m) => m <= n,
        Fits::Frame(size, filled) => {
            if n != size {
                return false;
            }
            pad_ok(h.multiplier, less(n, filled))
        }
    }
}

fn serial_ok(i: Option<u32>, n: u32) -> bool
    ensures { result ≡ serial_of i n }
{
    match i {
        None => true,
        Some(m) => m == n,
    }
}

// A fixed length and no multiplier.
fn exact_rule(length: usize, code: u32, serial: u32) -> Rule
    ensures { as_rule result ≡ R.exactly length code serial }
{
    Rule {
        code: Code::Is(code),
        most: 0,
        fits: Fits::Exactly(length),
        serial: Some(serial),
    }
}

// A least length, and a multiplier up to `most`.
fn least_rule(length: usize, code: u32, most: u32, serial: u32) -> Rule
    ensures { as_rule result ≡ R.at_least length code most serial }
{
    Rule {
        code: Code::Is(code),
        most,
        fits: Fits::AtLeast(length),
        serial: Some(serial),
    }
}

// A maker's rule, but for the code: any record but the delimiter meets it.
fn loose_rule(code: Code, most: u32) -> Rule
    ensures { as_rule result ≡ loose (codes_of code) most }
{
    Rule {
        code,
        most,
        fits: Fits::AtLeast(Maker::LEAST),
        serial: None,
    }
}

// What is fixed about each kind of record.
fn rule_of(kind: Kind) -> Rule
    ensures { as_rule result ≡ rule_of kind }
{
    match kind {
        Kind::Recording(label, i) => {
            least_rule(Recording::LEAST, Recording::CODE, most_of(label), i)
        }
        Kind::Basic => exact_rule(Basic::LENGTH, Basic::CODE, 0),
        Kind::Channels(code) => least_rule(Channels::LEAST, code, 0, 0),
        Kind::Channel(code, i) => exact_rule(Channel::LENGTH, code, i),
        Kind::Items(code) => least_rule(Items::LEAST, code, 0, 0),
        Kind::Frames(label) => least_rule(Frames::LEAST, Frames::CODE, most_of(label), 0),
        Kind::Frame(label, size, filled, i) => Rule {
            code: Code::Is(Frame::CODE),
            most: most_of(label),
            fits: Fits::Frame(size, filled),
            serial: Some(i),
        },
        Kind::Maker(label) => loose_rule(Code::Makers, most_of(label)),
        Kind::Any => loose_rule(Code::Any, Head::MOST),
    }
}

// The multiplier, the length and the serial of a record in a part of n bytes that stands at `base`: where the record stops.
fn admit_with(
    h: Head,
    base: usize,
    n: usize,
    most: u32,
    f: Fits,
    i: Option<u32>,
) -> Result<usize, Refusal>
    requires { HeadOfMost most base n h }
    ensures { ((o : Order) (b : ℕ) (s : List ℕ) →
        see o b s (base + (h.at + 16)) (R.admit (n - h.at) most (fits_of f h.multiplier) (serial_of i) (head_of h))
        ≡ admitted result (base + (h.at + 16))) × Fitting h f n result }
{
    if most < h.multiplier {
        return Err(Refusal(Reason::Multiplier, base + h.at + Head::MULTIPLIER));
    }
    if Head::LIMIT <= h.size {
        return Err(Refusal(Reason::Length, base + h.at));
    }
    let length = span(h);
    if !length_ok(f, h, length) {
        return Err(Refusal(Reason::Length, base + h.at));
    }
    if n < h.at + length {
        return Err(Refusal(Reason::Length, base + h.at));
    }
    if !serial_ok(i, h.serial) {
        return Err(Refusal(Reason::Serial, base + h.at + Head::SERIAL));
    }
    Ok(h.at + length)
}

// The same by the record's kind.
pub fn admit(h: Head, base: usize, n: usize, kind: Kind) -> Result<usize, Refusal>
    requires { HeadUpTo base n h }
    ensures { AdmittedBy h base n kind result }
{
    let rule = rule_of(kind);
    let most = rule.most;
    let fits = rule.fits;
    let serial = rule.serial;
    admit_with(h, base, n, most, fits, serial)
}

fn code_fits(codes: Code, n: u32) -> bool
    ensures { result ≡ codes_of codes n }
{
    match codes {
        Code::Is(m) => n == m,
        Code::Makers => maker_code(n),
        Code::Any => true,
    }
}

// The code is one of the kind's.
pub fn has_code(kind: Kind, code: u32) -> bool
    ensures { result ≡ (rule_of kind).code code }
{
    let rule = rule_of(kind);
    let codes = rule.code;
    code_fits(codes, code)
}

// The record of this kind at byte p of the part s, up to its body: its head is read, has the kind's code, and is admitted. The head, and where the record stops.
pub fn open(o: Order, s: &[u8], base: usize, p: usize, kind: Kind) -> Result<(Head, usize), Refusal>
    requires { PartAt base s.now p }
    ensures { OpenAt o base s.now p kind result }
{
    let h = head_at(o, s, base, p)?;
    if !has_code(kind, h.code) {
        return Err(Refusal(Reason::Code, base + p + Head::CODE));
    }
    let end = admit(h, base, s.len(), kind)?;
    Ok((h, end))
}
