// The file header and the recordings, in canonical form.
ghost use Rattle.std.specs.Prelude.{◌≡◌, List, ℕ, length};
ghost use Rattle.walk.specs.Walk.{render};
ghost use Rattle.rules.specs.Rules as R;
ghost use Rattle.rules.specs.Canonical as C;
ghost use Rattle.header.specs.Letters.{heading_of};
ghost use Rattle.children.specs.Recordings.{ReadAs};
ghost use Rattle.measures.specs.Measures.{length_in};
ghost use Rattle.rewrite.specs.RecordingsAnew.{StandsIn, MeasuredAt, ChildFits, ChildAnew, BodyFits, BodyAnew, RecordingFits, RecordingAnew};
ghost use Rattle.rewrite.specs.RecordingsAnew.{DigitsFit, HeaderFits, Counts, length_anew, FileFits, FileAnew};

use bodies::Way;
use bodies::runs::letter;
use bulk::{clear_run, copy_run};
use descriptions::Places;
use judge::recording::recording_again;
use measures::{Measure, measure_of};
use records::writing::put_head;
use rules::{
    Channels, FileHeader, Form, Frames, Head, Heading, Label, Recording, Spelling, Version,
};
use words::Order;

// The measure of the recording from byte p on, which has these places.
fn measure_at(o: Order, label: Label, file: &[u8], p: usize, q: Places) -> Option<Measure>
    requires { StandsIn (length file.now) p q }
    ensures { MeasuredAt o label file.now p q result }
{
    let base = p + Head::LENGTH;
    let end = q.end;
    if end < base || q.frames < base || end < q.frames {
        return None;
    }
    let cs = Channels {
        subs: q.channels + Channels::SUBS,
        count: q.count,
    };
    measure_of(o, label, file, cs, q.frames - base, &file[base..end], base)
}

// The length that a measure asks for.
fn measured_length(a: Option<Measure>) -> usize
    ensures { result ≡ length_in a }
{
    match a {
        Some(f) => f.whole.length,
        None => 0,
    }
}

// The digits of a number below 100.
fn digits(count: u32, d: &mut [u8])
    requires { DigitsFit d.old count }
    ensures { d.new ≡ C.digits count }
{
    copy_run(b"    ", d);
    if count < 10 {
        d[0] = (FileHeader::ZERO + count) as u8;
    } else {
        d[0] = (FileHeader::ZERO + count / 10) as u8;
        d[1] = (FileHeader::ZERO + count % 10) as u8;
    }
}

// The format's name, in the spelling that the file has.
fn name(spelling: Spelling, d: &mut [u8])
    requires { length d.old ≡ 8 }
    ensures { d.new ≡ R.spelled spelling }
{
    match spelling {
        Spelling::Spg => copy_run(b"JSSR-SPG", d),
        Spelling::Psg => copy_run(b"JSSR-PSG", d),
    }
}

// The six bytes of a version.
fn version_digits(version: Version, d: &mut [u8])
    requires { length d.old ≡ 6 }
    ensures { d.new ≡ R.versioned version }
{
    match version {
        Version::V100 => copy_run(b"000100", d),
        Version::V110 => copy_run(b"000110", d),
        Version::V200 => copy_run(b"000200", d),
        Version::V300 => copy_run(b"000300", d),
    }
}

// The form, in its two digits.
fn form_digits(form: Form, d: &mut [u8])
    requires { length d.old ≡ 2 }
    ensures { d.new ≡ R.formed form }
{
    match form {
        Form::Channels => copy_run(b"00", d),
        Form::Electrodes => copy_run(b"01", d),
    }
}

// The file header: K without leading zeros.
fn header(to: Order, heading: Heading, count: u32, d: &mut [u8])
    requires { HeaderFits d.old heading count }
    ensures { d.new ≡ render to (C.header_events (heading_of heading) count) }
{
    let label = heading.label;
    name(heading.spelling, &mut d[..FileHeader::VERSION]);
    version_digits(label.version, &mut d[FileHeader::VERSION..FileHeader::FORM]);
    form_digits(label.form, &mut d[FileHeader::FORM..FileHeader::ORDER]);
    d[FileHeader::ORDER] = letter(to);
    d[FileHeader::SCRIPT] = heading.script as u8;
    digits(count, &mut d[FileHeader::COUNT..FileHeader::SPACES]);
    copy_run(b"          ", &mut d[FileHeader::SPACES..]);
}

// The record with the head h that stands in a recording of this measure, up to byte `end` of its body s: where the next bytes go.
fn child(
    w: Way,
    file: &[u8],
    cs: Channels,
    f: Measure,
    s: &[u8],
    h: Head,
    end: usize,
    out: &mut [u8],
    k: usize,
) -> usize
    requires { ChildFits file.now s.now out.old cs f h end k }
    ensures { ChildAnew w file.now s.now cs f h end out.old out.new k result }
{
    if h.code == Frames::CODE {
        return crate::frames::frames(w, file, cs, f, s, out, k);
    }
    transcripts::transcribe(w, s, h, end, out, k)
}

// The body of a recording of this measure: d has room for its canonical form and no more. The delimiter and what pads it are zeros.
fn body(w: Way, file: &[u8], cs: Channels, f: Measure, s: &[u8], base: usize, d: &mut [u8])
    requires { BodyFits file.now s.now d.old cs f base }
    ensures { BodyAnew w file.now s.now d.new cs f base }
{
    let mut p: usize = 0;
    let mut k: usize = 0;
    while let Some((h, end)) = children::record_at(w.from, s, base, p) {
        k = child(w, file, cs, f, s, h, end, d, k);
        p = end;
    }
    clear_run(&mut d[k..]);
}

// The recording from byte p on, with the serial i, which has these places: where the next bytes go.
fn recording(w: Way, file: &[u8], p: usize, i: u32, q: Places, out: &mut [u8], k: usize) -> usize
    requires { RecordingFits file.now p q out.old k }
    ensures { RecordingAnew w file.now p i q out.old out.new k result }
{
    let Some(f) = measure_at(w.from, w.label, file, p, q) else {
        return k;
    };
    let whole = f.whole;
    if out.len() - k < whole.length {
        return k;
    }
    let cs = Channels {
        subs: q.channels + Channels::SUBS,
        count: q.count,
    };
    let base = p + Head::LENGTH;
    let from = k + Head::LENGTH;
    let end = k + whole.length;
    put_head(
        w.to,
        whole.size,
        Recording::CODE,
        i,
        whole.multiplier,
        &mut out[k..from],
    );
    body(
        w,
        file,
        cs,
        f,
        &file[base..q.end],
        base,
        &mut out[from..end],
    );
    end
}

// The length of the canonical form of a file with so many recordings.
pub fn file_length(o: Order, label: Label, file: &[u8], count: u32) -> usize
    requires { Counts (length file.now) count }
    ensures { (ps : List R.Placed) (e : ℕ) → ReadAs o label file.now count ps e → result ≡ length_anew label ps }
{
    let mut p = FileHeader::LENGTH;
    let mut sum = FileHeader::LENGTH;
    let mut before = None;
    for _i in 0..count {
        let Ok(q) = recording_again(o, label, file, p, before) else {
            return sum;
        };
        sum += measured_length(measure_at(o, label, file, p, q));
        p = q.end;
        before = Some(q);
    }
    sum
}

// The canonical form of a file with so many recordings.
pub fn file_anew(o: Order, into: Order, heading: Heading, file: &[u8], count: u32, out: &mut [u8])
    requires { FileFits file.now out.old heading count }
    ensures { FileAnew o into heading file.now count out.old out.new }
{
    let label = heading.label;
    let w = Way {
        from: o,
        label,
        to: into,
        keep: false,
    };
    let mut p = FileHeader::LENGTH;
    let mut k = FileHeader::LENGTH;
    header(into, heading, count, &mut out[..k]);
    let mut before = None;
    for i in 0..count {
        let Ok(q) = recording_again(o, label, file, p, before) else {
            return;
        };
        k = recording(w, file, p, i + 1, q, out, k);
        p = q.end;
        before = Some(q);
    }
}
