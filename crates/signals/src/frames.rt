// Record 140 and its frames.
ghost use Rattle.std.specs.Prelude.{◌≡◌, ◌&&◌, ◌||◌, List, ◌+◌, ◌-◌, ◌*◌, ◌≤◌, length, leb, ltb, eqb};
ghost use Rattle.rules.specs.Rules as R;
ghost use Rattle.records.specs.Asks.{SecondsOf};
ghost use Rattle.records.specs.Says.{ChannelsStand};
ghost use Rattle.signals.specs.FramesJudged.{SignalsIn, FramesAt};
ghost use Rattle.signals.specs.Shaped.{Countable, FieldsAsked, RestAsked, FieldsTested, RestRead, BodyRead};

use records::field;
use rules::{Basic, Channel, Channels, Frame, Frames, Head, Kind, Label, Reason, Refusal};
use words::{Order, number};

// T, the frame length, and the byte of a frame where its samples end: what a 140's own fields say.
#[derive(Clone, Copy)]
pub struct Shape {
    pub seconds: u32,
    pub size: usize,
    pub filled: usize,
}

// A channel with these flags and this rate has no rate, or at least one sample in t seconds.
fn sampled(t: u32, flags: u32, rate: u32) -> bool
    requires { t ≤ 3600 }
    ensures { (c : R.Channel) → c.flags ≡ flags → c.rate ≡ rate → result ≡ R.sampled t c }
{
    if rate == 0 {
        return true;
    }
    1 <= records::channels::samples_in(t, flags, rate)
}

// Each of the channels whose subs stand at cs has no rate, or at least one sample in t seconds.
fn all_sampled(o: Order, file: &[u8], cs: Channels, t: u32) -> bool
    requires { SecondsOf (length file.now) cs t }
    ensures { (ch : List R.Channel) → ChannelsStand o file.now cs ch → result ≡ R.all (R.sampled t) ch }
{
    let m = cs.count;
    let mut p = cs.subs;
    for _i in 0..m {
        let flags = number::<4>(o, file, p + Channel::FLAGS);
        let rate = number::<4>(o, file, p + Channel::RATE);
        if !sampled(t, flags, rate) {
            return false;
        }
        p += Channel::LENGTH;
    }
    true
}

// A frame of this length holds so many bytes of samples, and at most 127 bytes more.
fn size_ok(bytes: usize, size: usize) -> bool
    ensures { result ≡ (R.between (24 + bytes) (24 + bytes + 127) size && ltb size R.limit) }
{
    if size < Frame::SAMPLES {
        return false;
    }
    let rest = size - Frame::SAMPLES;
    if rest < bytes {
        return false;
    }
    if Frame::MOST_PADDING < rest - bytes {
        return false;
    }
    size < Frame::LIMIT
}

// So many frames fit a 140 of n bytes, and the padding behind them its multiplier.
fn room_ok(total: u32, size: usize, n: usize, multiplier: u32) -> bool
    requires { Countable total size }
    ensures { result ≡ (leb (32 + total * size) n && R.padded multiplier (n - (32 + total * size))) }
{
    let used = Frames::FIRST + total as usize * size;
    if n < used {
        return false;
    }
    records::pad_ok(multiplier, n - used)
}

// The tests of the fields of the record 140 at `at`, whose body is the part s.
fn read_shape(
    o: Order,
    file: &[u8],
    cs: Channels,
    s: &[u8],
    at: usize,
    total: u32,
    multiplier: u32,
) -> Result<Shape, Refusal>
    requires { FieldsAsked file.now cs at s.now total }
    ensures { FieldsTested o file.now cs at s.now total multiplier result }
{
    let t = field(o, s, Frames::SECONDS);
    let size = field(o, s, Frames::FRAME_LENGTH) as usize;
    let n = field(o, s, Frames::COUNT);
    if !records::between(1, Frames::MOST_SECONDS, t) {
        return Err(Refusal(Reason::Value, at + Frames::SECONDS));
    }
    if !all_sampled(o, file, cs, t) {
        return Err(Refusal(Reason::Disagreement, at + Frames::SECONDS));
    }
    let bytes = records::channels::sample_bytes(o, file, cs.subs, cs.count, t);
    if !size_ok(bytes, size) {
        return Err(Refusal(Reason::Disagreement, at + Frames::FRAME_LENGTH));
    }
    if n != total {
        return Err(Refusal(Reason::Disagreement, at + Frames::COUNT));
    }
    if !room_ok(n, size, Head::LENGTH + s.len(), multiplier) {
        return Err(Refusal(Reason::Disagreement, at + Frames::COUNT));
    }
    Ok(Shape {
        seconds: t,
        size,
        filled: Frame::SAMPLES + bytes,
    })
}

// The frames of the record 140 at `at`, and the padding behind them.
fn frames_rest(
    o: Order,
    label: Label,
    s: &[u8],
    at: usize,
    total: u32,
    f: Shape,
) -> Result<(Frames, usize), Refusal>
    requires { RestAsked at s.now total f }
    ensures { RestRead o label at s.now total f result }
{
    let size = f.size;
    let filled = f.filled;
    let n = s.len();
    let q = records::frames::frames_from(
        o,
        label,
        s,
        at + Head::LENGTH,
        Frames::BODY_FIRST,
        total,
        size,
        filled,
    )?;
    records::padding(s, at + Head::LENGTH, q, n)?;
    let padded = total as usize * (size - filled) + (n - q);
    let frames = Frames {
        seconds: f.seconds,
        size,
        padded,
    };
    Ok((frames, Head::LENGTH + n))
}

// The body of the record 140 at `at`, of so many frames.
fn frames_body(
    o: Order,
    label: Label,
    file: &[u8],
    cs: Channels,
    s: &[u8],
    at: usize,
    total: u32,
    multiplier: u32,
) -> Result<(Frames, usize), Refusal>
    requires { FieldsAsked file.now cs at s.now total }
    ensures { BodyRead o label file.now cs at s.now total multiplier result }
{
    let f = read_shape(o, file, cs, s, at, total, multiplier)?;
    frames_rest(o, label, s, at, total, f)
}

// Channels that are taken over are as many as the recording's own 100 says.
fn count_ok(own: bool, m: u32, channels: u32) -> bool
    ensures { result ≡ (own || eqb m channels) }
{
    if own {
        return true;
    }
    m == channels
}

// The rest of the record 140 whose head is h.
pub fn frames_at(
    o: Order,
    label: Label,
    file: &[u8],
    cs: Channels,
    own: bool,
    b: Basic,
    s: &[u8],
    base: usize,
    h: Head,
) -> Result<(Frames, usize), Refusal>
    requires { SignalsIn file.now cs b h base s.now }
    ensures { FramesAt o label file.now cs own b h base s.now result }
{
    let end = records::kinds::admit(h, base, s.len(), Kind::Frames(label))?;
    if !count_ok(own, cs.count, b.channels) {
        return Err(Refusal(Reason::Disagreement, base + Basic::CHANNELS));
    }
    let p = h.at;
    let body = &s[p + Head::LENGTH..end];
    let (f, _) = frames_body(o, label, file, cs, body, base + p, b.frames, h.multiplier)?;
    Ok((f, end))
}
