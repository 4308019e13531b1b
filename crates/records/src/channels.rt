// Records 120, 320 and 350, and their subs 125, 325 and 355.
ghost use Rattle.std.specs.Prelude.{◌≡◌, List, ◌+◌, ◌-◌, ◌*◌, ◌≤◌, length};
ghost use Rattle.walk.specs.See.{Verdict, see, ends};
ghost use Rattle.rules.specs.Rules as R;
ghost use Rattle.records.specs.Asks.{PartAt, HeadIn, BodyOf, SecondsOf};
ghost use Rattle.records.specs.Says.{head_of, group_of, is_group, sub_code, shape_of, inputs_tested};
ghost use Rattle.records.specs.Says.{Kept, Advances, Beyond, tested, resumed, StepOver};

use crate::kinds::{admit, open};
use crate::{between, field};
use rules::{
    Channel, Channels, Electrode, Electrodes, Group, Head, Kind, Montage, MontageChannel, Reason,
    Refusal, Shape, Version,
};
use versions::allows;
use words::{Order, number};

// Whether a record with this code holds subs.
pub fn is_group(code: u32) -> bool
    ensures { result ≡ is_group code }
{
    if code == Channels::CODE {
        return true;
    }
    if code == Electrodes::CODE {
        return true;
    }
    code == Montage::CODE
}

// The code of its subs, and which fields they have.
pub fn sub_code(code: u32) -> u32
    ensures { result ≡ sub_code code }
{
    if code == Channels::CODE {
        return Channel::CODE;
    }
    if code == Electrodes::CODE {
        return Electrode::CODE;
    }
    MontageChannel::CODE
}

pub fn shape_of(code: u32) -> Shape
    ensures { result ≡ shape_of code }
{
    Shape {
        calibrated: code != Electrodes::CODE,
        wired: code == Montage::CODE,
    }
}

pub fn group_code(g: Group) -> u32
    ensures { result ≡ (group_of g).code }
{
    match g {
        Group::Channels(_, _) => Channels::CODE,
        Group::Electrodes(_, _) => Electrodes::CODE,
        Group::Montage(_) => Montage::CODE,
    }
}

// The test of a group's count beside record 100's.
fn counts_ok(g: Group, m: u32) -> bool
    ensures { result ≡ (group_of g).counts m }
{
    match g {
        Group::Channels(_, n) => m == n,
        Group::Electrodes(_, n) => m == n,
        Group::Montage(_electrodes) => true,
    }
}

// The tests of a sub's fields, each by the group that holds it.
fn number_ok(g: Group, n: u32) -> bool
    ensures { result ≡ (group_of g).sub.number n }
{
    match g {
        Group::Channels(_, _) => true,
        Group::Electrodes(_, _) => n < Head::LIMIT,
        Group::Montage(_) => true,
    }
}

fn is_type(v: Version, n: u32) -> bool
    ensures { result ≡ R.is_type v n }
{
    if n == 20 {
        return allows(v).twenty;
    }
    n <= 18
}

fn type_ok(g: Group, n: u32) -> bool
    ensures { result ≡ (group_of g).sub.type n }
{
    match g {
        Group::Channels(v, _) => is_type(v, n),
        Group::Electrodes(v, _) => {
            if is_type(v, n) {
                return true;
            }
            n == Electrode::TYPE
        }
        Group::Montage(_) => true,
    }
}

fn is_format(v: Version, n: u32) -> bool
    ensures { result ≡ R.between 1 (R.allows v).format n }
{
    let allowed = allows(v);
    between(Channel::SHORTS, allowed.format, n)
}

fn format_ok(g: Group, n: u32) -> bool
    ensures { result ≡ (group_of g).sub.format n }
{
    match g {
        Group::Channels(v, _) => is_format(v, n),
        Group::Electrodes(v, _) => is_format(v, n),
        Group::Montage(_) => true,
    }
}

fn is_rate(flags: u32, kind: u32, rate: u32) -> bool
    ensures { result ≡ R.rate_ok flags kind rate }
{
    if rate == 0 {
        return kind == 0;
    }
    if flags % 2 == 0 {
        return rate <= Channel::MOST_RATE;
    }
    rate < Channel::PERIOD_LIMIT
}

fn rate_ok(g: Group, flags: u32, kind: u32, rate: u32) -> bool
    ensures { result ≡ (group_of g).sub.rate flags kind rate }
{
    match g {
        Group::Channels(_, _) => is_rate(flags, kind, rate),
        Group::Electrodes(_, _) => is_rate(flags, kind, rate),
        Group::Montage(_) => true,
    }
}

// An input of a montage's channel, over so many electrodes.
fn is_input(electrodes: u32, n: u32) -> bool
    ensures { result ≡ R.is_input electrodes n }
{
    let what = n / MontageChannel::INPUTS;
    if what == 0 {
        return n % MontageChannel::INPUTS <= electrodes;
    }
    what <= MontageChannel::MOST_INPUT
}

// G1 and G2 of the sub at `at`, where they are fields.
fn inputs_ok(o: Order, g: Group, s: &[u8], at: usize) -> Result<(), Refusal>
    requires { BodyOf 240 at s.now }
    ensures { (K : Verdict (Unit {0})) → inputs_tested (group_of g).sub o s.now at K ≡ resumed result K }
{
    let Group::Montage(electrodes) = g else {
        return Ok(());
    };
    if !is_input(electrodes, field(o, s, Channel::G1)) {
        return Err(Refusal(Reason::Value, at + Channel::G1));
    }
    if !is_input(electrodes, field(o, s, Channel::G2)) {
        return Err(Refusal(Reason::Value, at + Channel::G2));
    }
    Ok(())
}

// The body of the sub at `at`.
fn channel_body(o: Order, g: Group, s: &[u8], at: usize) -> Result<(), Refusal>
    requires { BodyOf 240 at s.now }
    ensures { ends (see o (at + 16) s.now (at + 16) (R.channel_body (group_of g).sub)) ≡ tested result (at + 256) }
{
    if !number_ok(g, field(o, s, Channel::NUMBER)) {
        return Err(Refusal(Reason::Value, at + Channel::NUMBER));
    }
    let kind = field(o, s, Channel::TYPE);
    if !type_ok(g, kind) {
        return Err(Refusal(Reason::Value, at + Channel::TYPE));
    }
    if !format_ok(g, field(o, s, Channel::FORMAT)) {
        return Err(Refusal(Reason::Value, at + Channel::FORMAT));
    }
    let flags = field(o, s, Channel::FLAGS);
    if !rate_ok(g, flags, kind, field(o, s, Channel::RATE)) {
        return Err(Refusal(Reason::Value, at + Channel::RATE));
    }
    inputs_ok(o, g, s, at)
}

// The sub at byte p of the part s, with the serial i: where it stops.
fn channel_at(o: Order, g: Group, s: &[u8], base: usize, p: usize, i: u32) -> Result<usize, Refusal>
    requires { PartAt base s.now p }
    ensures { StepOver o base s.now p
        (R.channel (group_of g).sub (length s.now - p) i) (Advances p 256 (length s.now)) result }
{
    let kind = Kind::Channel(sub_code(group_code(g)), i);
    let (_, end) = open(o, s, base, p, kind)?;
    let body = &s[p + Head::LENGTH..end];
    channel_body(o, g, body, base + p)?;
    Ok(end)
}

// So many subs from byte `from` of the part s on: where they end.
fn channels_from(
    o: Order,
    g: Group,
    s: &[u8],
    base: usize,
    from: usize,
    count: u32,
) -> Result<usize, Refusal>
    requires { PartAt base s.now from }
    ensures { StepOver o base s.now from
        (R.series count 1 256 (length s.now - from) (R.channel (group_of g).sub)) (Advances from (256 * count) (length s.now)) result }
{
    let mut p = from;
    for i in 0..count {
        p = channel_at(o, g, s, base, p, i + 1)?;
    }
    Ok(p)
}

// The body of the record 120, 320 or 350 at `at`.
fn channels_body(o: Order, g: Group, s: &[u8], at: usize) -> Result<(), Refusal>
    requires { BodyOf 16 at s.now }
    ensures { ends (see o (at + 16) s.now (at + 16) (R.channels_body (group_of g) (16 + length s.now)))
        ≡ tested result (at + (16 + length s.now)) }
{
    let m = field(o, s, Channels::COUNT);
    if !between(1, Channels::MOST, m) {
        return Err(Refusal(Reason::Value, at + Channels::COUNT));
    }
    if !counts_ok(g, m) {
        return Err(Refusal(Reason::Disagreement, at + Channels::COUNT));
    }
    let n = s.len();
    if Head::LENGTH + n != Channels::SUBS + Channel::LENGTH * m as usize {
        return Err(Refusal(Reason::Disagreement, at + Channels::COUNT));
    }
    if Channel::SIZE != field(o, s, Channels::SUB_SIZE) {
        return Err(Refusal(Reason::Value, at + Channels::SUB_SIZE));
    }
    channels_from(o, g, s, at + Head::LENGTH, Channels::BODY_SUBS, m)?;
    Ok(())
}

// The rest of the record 120, 320 or 350 whose head is h: where it stops.
pub fn channels_at(o: Order, g: Group, s: &[u8], base: usize, h: Head) -> Result<usize, Refusal>
    requires { HeadIn base s.now h }
    ensures { StepOver o base s.now (h.at + 16)
        (R.channels (group_of g) (length s.now - h.at) (head_of h)) (Beyond (h.at + 32) (length s.now)) result }
{
    let end = admit(h, base, s.len(), Kind::Channels(group_code(g)))?;
    let p = h.at;
    let body = &s[p + Head::LENGTH..end];
    channels_body(o, g, body, base + p)?;
    Ok(end)
}

pub fn width(format: u32) -> usize
    ensures { (result ≡ R.width format) × (result ≤ 4) }
{
    if format == Channel::SHORTS {
        return Channel::SHORT_WIDTH;
    }
    if format == Channel::TRIPLES {
        return Channel::TRIPLE_WIDTH;
    }
    Channel::LONG_WIDTH
}

// The samples of a channel in t seconds.
pub fn samples_in(t: u32, flags: u32, rate: u32) -> usize
    requires { t ≤ 3600 }
    ensures { (result ≡ R.samples_of t flags rate) × (result ≤ 15461882265600) }
{
    if rate == 0 {
        return 0;
    }
    if flags % 2 == 0 {
        return rate as usize * t as usize;
    }
    t as usize * Channel::MICROSECONDS as usize / rate as usize
}

// The sample bytes of t seconds, over the m channels whose subs stand from byte `subs` of s on.
pub fn sample_bytes(o: Order, s: &[u8], subs: usize, m: u32, t: u32) -> usize
    requires { SecondsOf (length s.now) (record { subs = subs; count = m }) t }
    ensures { (cs : List R.Channel) → length cs ≡ m → Kept o s.now subs cs → result ≡ R.sample_bytes t cs }
{
    let mut p = subs;
    let mut sum: usize = 0;
    for _i in 0..m {
        let flags = number::<4>(o, s, p + Channel::FLAGS);
        let format = number::<4>(o, s, p + Channel::FORMAT);
        let rate = number::<4>(o, s, p + Channel::RATE);
        sum += width(format) * samples_in(t, flags, rate);
        p += Channel::LENGTH;
    }
    sum
}
