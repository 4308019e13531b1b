// A recording: record 10 and what it holds.
ghost use Rattle.std.specs.Prelude.{◌≡◌, ◌+◌, length};
ghost use Rattle.words.specs.Sizes.{Addressable};
ghost use Rattle.judge.specs.Recorded.{places_for, RecordingIn, BodyIn, TablesIn, BodyJudged, RecordingAt, BodyAgain, RecordingAgain};

use descriptions::{Described, Places, channels_of, judge_descriptions};
use records::kinds::open;
use rules::{Frames, Head, Kind, Label, Reason, Refusal};
use signals::signals;
use words::{Order, number};

// The places of the recording at `at`, whose body has n bytes and these descriptions: its frames are so long, and of so many seconds.
fn places_for(at: usize, n: usize, t: Described, frame: usize, seconds: u32) -> Places
    requires { TablesIn at n t }
    ensures { result ≡ places_for at n t frame seconds }
{
    let base = at + Head::LENGTH;
    let basic = t.basic;
    let next = t.next;
    Places {
        start: at,
        end: base + n,
        channels: t.channels,
        count: t.count,
        patient: t.patient,
        events: t.events,
        montage: t.montage,
        frames: base + next.at,
        frame,
        total: basic.frames,
        seconds,
    }
}

// The body of the recording at `at`: the part of the file that starts 16 bytes into it.
fn recording_body(
    o: Order,
    label: Label,
    file: &[u8],
    s: &[u8],
    at: usize,
    multiplier: u32,
    before: Option<Places>,
) -> Result<Places, Refusal>
    requires { BodyIn file.now s.now at before }
    ensures { BodyJudged o label file.now s.now at multiplier before result }
{
    let base = at + Head::LENGTH;
    let t = judge_descriptions(o, label, s, base, before)?;
    let cs = channels_of(t);
    let next = t.next;
    let basic = t.basic;
    let (f, _) = signals(o, label, file, cs, t.own, basic, next, s, base, multiplier)?;
    Ok(places_for(at, s.len(), t, f.size, f.seconds))
}

// The recording at byte p of the file, with the serial i.
pub fn recording_at(
    o: Order,
    label: Label,
    file: &[u8],
    p: usize,
    i: u32,
    before: Option<Places>,
) -> Result<Places, Refusal>
    requires { RecordingIn (length file.now) p before }
    ensures { RecordingAt o label file.now p i before result }
{
    let (h, end) = open(o, file, 0, p, Kind::Recording(label, i))?;
    recording_body(
        o,
        label,
        file,
        &file[p + Head::LENGTH..end],
        p,
        h.multiplier,
        before,
    )
}

// The body of a recording that the judge accepted.
fn body_again(
    o: Order,
    label: Label,
    s: &[u8],
    at: usize,
    before: Option<Places>,
) -> Result<Places, Refusal>
    requires { Addressable (at + 16 + length s.now) }
    ensures { BodyAgain o label s.now at before result }
{
    let base = at + Head::LENGTH;
    let t = judge_descriptions(o, label, s, base, before)?;
    let next = t.next;
    let p = next.at;
    let place = base + p;
    // A 140 without room for its own fields: as `frames_at` refuses it.
    if s.len() < p + Frames::FIRST {
        return Err(Refusal(Reason::Length, place));
    }
    let seconds = number::<4>(o, s, p + Frames::SECONDS);
    let frame = number::<4>(o, s, p + Frames::FRAME_LENGTH) as usize;
    Ok(places_for(at, s.len(), t, frame, seconds))
}

// Where a recording stands that the judge accepted: its descriptions are read again, its frames are not.
pub fn recording_again(
    o: Order,
    label: Label,
    file: &[u8],
    p: usize,
    before: Option<Places>,
) -> Result<Places, Refusal>
    requires { RecordingIn (length file.now) p before }
    ensures { RecordingAgain o label file.now p before result }
{
    let (_, end) = open(o, file, 0, p, Kind::Any)?;
    body_again(o, label, &file[p + Head::LENGTH..end], p, before)
}
