// Record 145; 140 is in crate `signals`.
ghost use Rattle.std.specs.Prelude.{◌≡◌, List, ℕ, ◌+◌, ◌-◌, ◌*◌, length};
ghost use Rattle.walk.specs.See.{see, ends};
ghost use Rattle.rules.specs.Rules as R;
ghost use Rattle.rules.specs.Rules.{frame_body};
ghost use Rattle.records.specs.Asks.{FilledBody, FilledFrames};
ghost use Rattle.records.specs.Says.{Advances, tested, FramesOver};

use crate::kinds::open;
use crate::{padding, short_field};
use rules::{Frame, Head, Kind, Label, Reason, Refusal};
use words::Order;

// The body of the record 145 at `at`, whose samples end at byte `filled` of the record.
fn frame_body(o: Order, s: &[u8], at: usize, filled: usize) -> Result<(), Refusal>
    requires { FilledBody filled at s.now }
    ensures { (t : ℕ) (cs : List R.Channel) → filled ≡ 24 + R.sample_bytes t cs →
        ends (see o (at + 16) s.now (at + 16) (frame_body (16 + length s.now) t cs))
        ≡ tested result (at + (16 + length s.now)) }
{
    if 23 < short_field(o, s, Frame::HOUR) {
        return Err(Refusal(Reason::Value, at + Frame::HOUR));
    }
    if 59 < short_field(o, s, Frame::MINUTE) {
        return Err(Refusal(Reason::Value, at + Frame::MINUTE));
    }
    if 59 < short_field(o, s, Frame::SECOND) {
        return Err(Refusal(Reason::Value, at + Frame::SECOND));
    }
    padding(s, at + Head::LENGTH, filled - Head::LENGTH, s.len())
}

// The record 145 at byte p of the part s, with the serial i, the length `size`, and samples that end at byte `filled` of it: where it stops.
fn frame_at(
    o: Order,
    label: Label,
    s: &[u8],
    base: usize,
    p: usize,
    i: u32,
    size: usize,
    filled: usize,
) -> Result<usize, Refusal>
    requires { FilledFrames base s.now p size filled }
    ensures { FramesOver o base s.now p filled
        (λ t cs. R.frame label size t cs (length s.now - p) i) (Advances p size (length s.now)) result }
{
    let (_, end) = open(o, s, base, p, Kind::Frame(label, size, filled, i))?;
    let body = &s[p + Head::LENGTH..end];
    frame_body(o, body, base + p, filled)?;
    Ok(end)
}

// So many records 145 from byte `from` of the part s on: where they end.
pub fn frames_from(
    o: Order,
    label: Label,
    s: &[u8],
    base: usize,
    from: usize,
    count: u32,
    size: usize,
    filled: usize,
) -> Result<usize, Refusal>
    requires { FilledFrames base s.now from size filled }
    ensures { FramesOver o base s.now from filled
        (λ t cs. R.series count 1 size (length s.now - from) (R.frame label size t cs)) (Advances from (size * count) (length s.now)) result }
{
    let mut p = from;
    for i in 0..count {
        p = frame_at(o, label, s, base, p, i + 1, size, filled)?;
    }
    Ok(p)
}
