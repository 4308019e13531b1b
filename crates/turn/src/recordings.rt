// The file header and the recordings, turned.
ghost use Rattle.std.specs.Prelude.{◌≡◌, List, ◌++◌, ℕ, ◌-◌, length};
ghost use Rattle.std.proofs.Math.Option.{Option, none};
ghost use Rattle.words.specs.Numbers as N;
ghost use Rattle.words.specs.Runs.{pasted};
ghost use Rattle.walk.specs.See.{see, goes};
ghost use Rattle.rules.specs.Rules as R;
ghost use Rattle.records.specs.Says.{subs_at, ChannelsStand};
ghost use Rattle.bodies.specs.Copy.{copy};
ghost use Rattle.bodies.specs.Asks.{Both};
ghost use Rattle.transcripts.specs.Transcript.{PlacesIn};
ghost use Rattle.turn.specs.Steps.{turning, ChildFrom, BodyFrom, RecordingFrom, FileFrom, ChildSent, LastSent, BodySent};

use bodies::Way;
use bodies::runs::letter;
use bulk::copy_run;
use descriptions::Places;
use judge::recording::recording_again;
use rules::{Channels, Delimiter, FileHeader, Frames, Head, Label};
use words::Order;

// The other order.
fn other(o: Order) -> Order
    ensures { result ≡ N.other o }
{
    match o {
        Order::Little => Order::Big,
        Order::Big => Order::Little,
    }
}

// The file header, with the letter of the order that is written.
fn header(w: Way, s: &[u8], d: &mut [u8])
    requires { Both 32 s.now d.old }
    ensures { (n : ℕ) (f : R.FileHeader) (e : ℕ) → see w.from 0 s.now 0 (R.file_header n) ≡ goes f e →
        d.new ≡ copy w 0 s.now 0 (R.file_header n) }
{
    copy_run(s, d);
    d[FileHeader::ORDER] = letter(w.to);
}

// The record with the head h that stands in a recording, up to byte `end` of its body s, with the subs that hold for it.
fn child(
    w: Way,
    file: &[u8],
    cs: Channels,
    s: &[u8],
    h: Head,
    end: usize,
    out: &mut [u8],
    k: usize,
) -> usize
    requires { ChildFrom file.now cs s.now h.at end out.old k }
    ensures { ChildSent w file.now cs s.now h end out.old out.new k result }
{
    if h.code == Frames::CODE {
        return crate::frames::frames(w, file, cs, s, h.at, end, out, k);
    }
    transcripts::transcribe(w, s, h, end, out, k)
}

// The delimiter at byte p of a recording's body s, and what pads the recording.
fn last(w: Way, s: &[u8], p: usize, out: &mut [u8], k: usize)
    requires { PlacesIn s.now p out.old k }
    ensures { LastSent w s.now p out.old out.new k }
{
    if s.len() - p < Delimiter::LENGTH {
        return;
    }
    let rest = p + Delimiter::LENGTH;
    let at = transcripts::head(w, s, p, out, k);
    transcripts::text(&s[rest..], out, at);
}

// A recording's body, which stands at `base`, with the subs that hold for it.
fn body(w: Way, file: &[u8], cs: Channels, s: &[u8], base: usize, out: &mut [u8], k: usize)
    requires { BodyFrom file.now cs s.now base out.old k }
    ensures { BodySent w file.now cs s.now base out.old out.new k }
{
    let mut p: usize = 0;
    let mut next = k;
    while let Some((h, end)) = children::record_at(w.from, s, base, p) {
        next = child(w, file, cs, s, h, end, out, next);
        p = end;
    }
    last(w, s, p, out, next);
}

// The recording from byte p of the file on, which has these places.
fn recording(w: Way, file: &[u8], p: usize, q: Places, out: &mut [u8])
    requires { RecordingFrom file.now p q out.old }
    ensures { (held : Option R.Held) (i : ℕ) (x : R.Placed) →
        see w.from 0 file.now p (R.recording w.label held (length file.now - p) i) ≡ goes x q.end →
        ChannelsStand w.from file.now (subs_at q.channels q.count) x.recording.channels →
        out.new ≡ pasted out.old p (copy w 0 file.now p (R.recording w.label held (length file.now - p) i)) }
{
    let base = p + Head::LENGTH;
    let end = q.end;
    if end < base {
        return;
    }
    let k = transcripts::head(w, file, p, out, p);
    let cs = Channels {
        subs: q.channels + Channels::SUBS,
        count: q.count,
    };
    body(w, file, cs, &file[base..end], base, out, k);
}

// A file with so many recordings.
pub fn file_turned(o: Order, label: Label, file: &[u8], count: u32, out: &mut [u8])
    requires { FileFrom file.now out.old }
    ensures { (f : R.FileHeader) (ps : List R.Placed) (e : ℕ) →
        see o 0 file.now 0 (R.file_header (length file.now)) ≡ goes f 32 →
        see o 0 file.now 32 (R.recordings label count none (length file.now - 32) 1) ≡ goes ps e →
        out.new ≡ pasted out.old 0
        (copy (turning o label) 0 file.now 0 (R.file_header (length file.now)) ++
        copy (turning o label) 0 file.now 32 (R.recordings label count none (length file.now - 32) 1)) }
{
    let w = Way {
        from: o,
        label,
        to: other(o),
        keep: true,
    };
    let mut p = FileHeader::LENGTH;
    header(w, &file[..p], &mut out[..p]);
    let mut before = None;
    for _i in 0..count {
        let Ok(q) = recording_again(o, label, file, p, before) else {
            return;
        };
        recording(w, file, p, q, out);
        p = q.end;
        before = Some(q);
    }
}
