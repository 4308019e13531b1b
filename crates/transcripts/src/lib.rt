// A record of a recording, written anew by its code.
// Every function is safe for any bytes and any room; what is written is said of what was accepted.
#![tactic(auto)]

ghost use Rattle.std.specs.Prelude.{◌≡◌, ℕ, ◌+◌, ◌≤◌, length};
ghost use Rattle.rules.specs.Rules as R;
ghost use Rattle.records.specs.Says.{HasShape};
ghost use Rattle.bodies.specs.Copy.{copy, Pastes};
ghost use Rattle.transcripts.specs.Transcript.{PlacesIn, RecordFrom, Anew, Itemized, Bodied, Transcribed};

use bodies::runs::numbers;
use bodies::{Way, basic_body, channels_body, items_body};
use bulk::copy_run;
use records::channels::{is_group, shape_of};
use rules::{Basic, Channel, Channels, Events, Head, Items, Patient, Shape};
use words::number;

// Bytes as they stand, if there is room for them.
pub fn text(s: &[u8], out: &mut [u8], k: usize) -> usize
    requires { k ≤ length out.old }
    ensures { (result ≤ length out.old) × Pastes out.old out.new k result s.now }
{
    if out.len() - k < s.len() {
        return k;
    }
    let end = k + s.len();
    copy_run(s, &mut out[k..end]);
    end
}

// The head at byte p of s, if there is room for it.
pub fn head(w: Way, s: &[u8], p: usize, out: &mut [u8], k: usize) -> usize
    requires { PlacesIn s.now (p + 16) out.old k }
    ensures { (result ≤ length out.old) × ((b room : ℕ) →
        Pastes out.old out.new k result (copy w b s.now (b + p) (R.head room))) }
{
    if out.len() - k < Head::LENGTH {
        return k;
    }
    let end = k + Head::LENGTH;
    numbers(
        w,
        Head::WIDTH,
        Head::NUMBERS,
        &s[p..p + Head::LENGTH],
        &mut out[k..end],
    );
    end
}

// The body of a 100, if it has its length.
fn sized_basic(w: Way, s: &[u8], d: &mut [u8])
    requires { length d.old ≡ length s.now }
    ensures { length s.now ≡ 112 → Anew w s.now d.new R.basic_body }
{
    if s.len() != Basic::BODY_LENGTH {
        return;
    }
    basic_body(w, s, d);
}

// The body of a 120, 320 or 350, if it has the length that its count of subs asks for.
fn sized_channels(w: Way, k: Shape, s: &[u8], d: &mut [u8])
    requires { length d.old ≡ length s.now }
    ensures { (g : R.Group) → HasShape g.sub k → Anew w s.now d.new (R.channels_body g (16 + length s.now)) }
{
    if s.len() < Channels::BODY_SUBS {
        return;
    }
    let count = number::<4>(w.from, s, Channels::BODY_COUNT);
    if s.len() != Channels::BODY_SUBS + Channel::LENGTH * count as usize {
        return;
    }
    channels_body(w, k, count, s, d);
}

// The body of a 130 or a 200, if it has room for its count.
fn sized_items(w: Way, s: &[u8], d: &mut [u8])
    requires { length d.old ≡ length s.now }
    ensures { Itemized w s.now d.new }
{
    if s.len() < Items::BODY_FIRST {
        return;
    }
    items_body(w, s, d);
}

// The body of a record with this code, but no 140.
fn body(w: Way, code: u32, s: &[u8], d: &mut [u8])
    requires { length d.old ≡ length s.now }
    ensures { Bodied w code s.now d.new }
{
    match code {
        Basic::CODE => sized_basic(w, s, d),
        Patient::CODE | Events::CODE => sized_items(w, s, d),
        _ if is_group(code) => sized_channels(w, shape_of(code), s, d),
        _ => copy_run(s, d),
    }
}

// A record of a recording, but no 140, with the head h and up to byte `end` of the part s: where the next bytes go.
pub fn transcribe(w: Way, s: &[u8], h: Head, end: usize, out: &mut [u8], k: usize) -> usize
    requires { RecordFrom s.now h.at end out.old k }
    ensures { Transcribed w s.now h end out.old out.new k result }
{
    let p = h.at;
    let from = p + Head::LENGTH;
    let n = end - from;
    let at = head(w, s, p, out, k);
    if out.len() - at < n {
        return at;
    }
    let behind = at + n;
    body(w, h.code, &s[from..end], &mut out[at..behind]);
    behind
}
