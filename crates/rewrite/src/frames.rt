// Record 140 and its frames in canonical form.
ghost use Rattle.rewrite.specs.FramesAnew.{FrameFits, FrameAnew, FramesRoom, FramesAnew, SignalsFit, SignalsAnew};

use bodies::{Way, frame_body, widths_of};
use bulk::clear_run;
use measures::Measure;
use records::writing::put_head;
use rules::{Channels, Frame, Frames, Head};
use words::put;

// A record 145 with the serial i: the frame s up to its padding, under a head of its own.
fn frame(
    w: Way,
    file: &[u8],
    cs: Channels,
    widths: Option<usize>,
    t: u32,
    i: u32,
    s: &[u8],
    d: &mut [u8],
)
    requires { FrameFits w file.now s.now d.old cs widths t }
    ensures { FrameAnew w file.now s.now d.new cs t i }
{
    put_head(
        w.to,
        s.len() as u32,
        Frame::CODE,
        i,
        0,
        &mut d[..Head::LENGTH],
    );
    frame_body(
        w,
        file,
        cs,
        widths,
        t,
        &s[Head::LENGTH..],
        &mut d[Head::LENGTH..],
    );
}

// The body of a 140 of so many frames: s is the body that is read, where a frame takes `size` bytes, `filled` of them without its padding.
fn frames_body(
    w: Way,
    file: &[u8],
    cs: Channels,
    t: u32,
    filled: usize,
    size: usize,
    count: u32,
    s: &[u8],
    d: &mut [u8],
)
    requires { FramesRoom file.now s.now d.old cs t filled size count }
    ensures { FramesAnew w file.now s.now d.old d.new cs t filled size count }
{
    let widths = widths_of(w.from, file, cs);
    put::<4>(w.to, t, &mut d[..Frames::BODY_FRAME_LENGTH]);
    put::<4>(
        w.to,
        filled as u32,
        &mut d[Frames::BODY_FRAME_LENGTH..Frames::BODY_COUNT],
    );
    put::<4>(
        w.to,
        count,
        &mut d[Frames::BODY_COUNT..Frames::BODY_RESERVE],
    );
    clear_run(&mut d[Frames::BODY_RESERVE..Frames::BODY_FIRST]);
    let mut from = Frames::BODY_FIRST;
    let mut k = Frames::BODY_FIRST;
    for i in 0..count {
        let end = k + filled;
        frame(
            w,
            file,
            cs,
            widths,
            t,
            i + 1,
            &s[from..from + filled],
            &mut d[k..end],
        );
        from += size;
        k = end;
    }
    clear_run(&mut d[k..]);
}

// The 140 of a recording of this measure, whose body is s: where the next bytes go.
pub fn frames(
    w: Way,
    file: &[u8],
    cs: Channels,
    f: Measure,
    s: &[u8],
    out: &mut [u8],
    k: usize,
) -> usize
    requires { SignalsFit file.now s.now out.old cs f k }
    ensures { SignalsAnew w file.now s.now cs f out.old out.new k result }
{
    let signals = f.signals;
    if out.len() - k < signals.length {
        return k;
    }
    let from = f.at + Head::LENGTH;
    let body = k + Head::LENGTH;
    let end = k + signals.length;
    put_head(
        w.to,
        signals.size,
        Frames::CODE,
        0,
        signals.multiplier,
        &mut out[k..body],
    );
    frames_body(
        w,
        file,
        cs,
        f.seconds,
        f.filled,
        f.size,
        f.count,
        &s[from..f.end],
        &mut out[body..end],
    );
    end
}
