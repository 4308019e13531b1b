// Record 140 and its frames, turned into a part of the same length.
ghost use Rattle.std.specs.Prelude.{◌≡◌, List, ℕ, ◌+◌, length};
ghost use Rattle.words.specs.Numbers.{number_at};
ghost use Rattle.walk.specs.See.{see, goes};
ghost use Rattle.rules.specs.Rules as R;
ghost use Rattle.records.specs.Says.{ChannelsStand};
ghost use Rattle.bodies.specs.Copy.{copy};
ghost use Rattle.turn.specs.Steps.{FrameFrom, FramesSized, FramesFrom, FramesPasted, ChildFrom, FramesSent};

use bodies::runs::{numbers, reserved};
use bodies::{Way, fits, frame_body, widths_of};
use bulk::copy_run;
use rules::{Channels, Frame, Frames, Head};
use transcripts::head;

// A record 145 whose samples end at byte `filled`.
fn frame(
    w: Way,
    file: &[u8],
    cs: Channels,
    widths: Option<usize>,
    t: u32,
    filled: usize,
    s: &[u8],
    d: &mut [u8],
)
    requires { FrameFrom w.from file.now cs widths t filled s.now d.old }
    ensures { (b room i : ℕ) (ch : List R.Channel) → ChannelsStand w.from file.now cs ch →
        filled ≡ 24 + R.sample_bytes t ch → d.new ≡ copy w b s.now b (R.frame w.label (length s.now) t ch room i) }
{
    let body = Head::LENGTH;
    numbers(w, Head::WIDTH, Head::NUMBERS, &s[..body], &mut d[..body]);
    frame_body(
        w,
        file,
        cs,
        widths,
        t,
        &s[body..filled],
        &mut d[body..filled],
    );
    copy_run(&s[filled..], &mut d[filled..]);
}

// The body of a record 140 of so many frames of this size.
fn frames_body(
    w: Way,
    file: &[u8],
    cs: Channels,
    t: u32,
    filled: usize,
    size: usize,
    count: u32,
    s: &[u8],
    d: &mut [u8],
)
    requires { FramesSized file.now cs t filled size count s.now d.old }
    ensures { (b : ℕ) (c : R.Basic) (ch : List R.Channel) (hd : R.Head) (f : R.Frames) (e : ℕ) →
        ChannelsStand w.from file.now cs ch → filled ≡ 24 + R.sample_bytes t ch →
        number_at w.from 4 s.now 0 ≡ t → number_at w.from 4 s.now 4 ≡ size →
        number_at w.from 4 s.now 8 ≡ count → R.span hd ≡ 16 + length s.now →
        see w.from b s.now b (R.frames_body w.label c ch hd) ≡ goes f e →
        d.new ≡ copy w b s.now b (R.frames_body w.label c ch hd) }
{
    let widths = widths_of(w.from, file, cs);
    let reserve = Frames::BODY_RESERVE;
    let mut from = Frames::BODY_FIRST;
    let mut k = Frames::BODY_FIRST;
    numbers(
        w,
        Head::WIDTH,
        Frames::NUMBERS,
        &s[..reserve],
        &mut d[..reserve],
    );
    reserved(w, &s[reserve..from], &mut d[reserve..k]);
    for _i in 0..count {
        let end = k + size;
        frame(
            w,
            file,
            cs,
            widths,
            t,
            filled,
            &s[from..from + size],
            &mut d[k..end],
        );
        from += size;
        k = end;
    }
    copy_run(&s[from..], &mut d[k..]);
}

// The body s of a 140, with the records 125 that hold for it, if there is room for it.
fn body_if_room(w: Way, file: &[u8], cs: Channels, s: &[u8], out: &mut [u8], k: usize) -> usize
    requires { FramesFrom file.now cs s.now out.old k }
    ensures { FramesPasted w file.now cs s.now out.old out.new k result }
{
    let o = w.from;
    let t = records::field(o, s, Frames::SECONDS);
    let size = records::field(o, s, Frames::FRAME_LENGTH) as usize;
    let count = records::field(o, s, Frames::COUNT);
    if Frames::MOST_SECONDS < t {
        return k;
    }
    let bytes = records::channels::sample_bytes(o, file, cs.subs, cs.count, t);
    if !fits(bytes, size, count, s.len()) {
        return k;
    }
    if out.len() - k < s.len() {
        return k;
    }
    let filled = Frame::SAMPLES + bytes;
    let end = k + s.len();
    frames_body(w, file, cs, t, filled, size, count, s, &mut out[k..end]);
    end
}

// The 140 at byte p of the part s, which ends at byte `end`, with the records 125 that hold for it: where the next bytes go.
pub fn frames(
    w: Way,
    file: &[u8],
    cs: Channels,
    s: &[u8],
    p: usize,
    end: usize,
    out: &mut [u8],
    k: usize,
) -> usize
    requires { ChildFrom file.now cs s.now p end out.old k }
    ensures { FramesSent w file.now cs s.now p end out.old out.new k result }
{
    if end - p < Frames::LEAST {
        return k;
    }
    let from = p + Head::LENGTH;
    let at = head(w, s, p, out, k);
    body_if_room(w, file, cs, &s[from..end], out, at)
}
