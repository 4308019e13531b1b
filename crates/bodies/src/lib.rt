// The bodies of records, written anew into parts of the same length.
#![tactic(auto)]

pub mod runs;

ghost use Rattle.std.specs.Prelude.{◌≡◌, Bool, false, ◌&&◌, List, ◌∷◌, ℕ, ◌+◌, ◌-◌, ◌*◌, ◌≤◌, ◌<◌, leb, length};
ghost use Rattle.words.specs.Numbers.{number_at};
ghost use Rattle.words.specs.Runs.{pasted};
ghost use Rattle.walk.specs.See.{see, goes};
ghost use Rattle.rules.specs.Rules as R;
ghost use Rattle.records.specs.Says.{Kept, HasShape};
ghost use Rattle.bodies.specs.Copy.{copy, numbers_of, filling, widths_in};
ghost use Rattle.bodies.specs.Orders.{same_order};
ghost use Rattle.bodies.specs.Asks.{Both, AtLeast, OneWidth, SamplesPart, FramePart};

use crate::runs::{numbers, reserved, same_order};
use bulk::{copy_run, turn_run};
use rules::{Basic, Channel, Channels, Frame, Frames, Head, Item, Items, Label, Shape};
use words::{Order, number};

// From the file's order to another or the same, in a file with this label; `keep`: reserve areas stand as they are, else they are zero.
#[derive(Clone, Copy)]
pub struct Way {
    pub from: Order,
    pub label: Label,
    pub to: Order,
    pub keep: bool,
}

// The body of a record 100.
pub fn basic_body(w: Way, s: &[u8], d: &mut [u8])
    requires { Both 112 s.now d.old }
    ensures { (b : ℕ) → d.new ≡ copy w b s.now b R.basic_body }
{
    numbers(
        w,
        Head::WIDTH,
        Basic::NUMBERS,
        &s[..Basic::BODY_RESERVE],
        &mut d[..Basic::BODY_RESERVE],
    );
    reserved(
        w,
        &s[Basic::BODY_RESERVE..Basic::BODY_YEAR],
        &mut d[Basic::BODY_RESERVE..Basic::BODY_YEAR],
    );
    numbers(
        w,
        Head::WIDTH,
        Basic::DATE_NUMBERS,
        &s[Basic::BODY_YEAR..Basic::BODY_TIME],
        &mut d[Basic::BODY_YEAR..Basic::BODY_TIME],
    );
    copy_run(
        &s[Basic::BODY_TIME..Basic::BODY_MAINS],
        &mut d[Basic::BODY_TIME..Basic::BODY_MAINS],
    );
    numbers(
        w,
        Head::WIDTH,
        Basic::MAINS_NUMBERS,
        &s[Basic::BODY_MAINS..Basic::BODY_SPARE],
        &mut d[Basic::BODY_MAINS..Basic::BODY_SPARE],
    );
    reserved(
        w,
        &s[Basic::BODY_SPARE..Basic::BODY_COMMENT],
        &mut d[Basic::BODY_SPARE..Basic::BODY_COMMENT],
    );
    copy_run(&s[Basic::BODY_COMMENT..], &mut d[Basic::BODY_COMMENT..]);
}

// A number that is a field of some subs and reserve in others.
fn number_if(w: Way, is: bool, s: &[u8], d: &mut [u8])
    requires { Both 4 s.now d.old }
    ensures { (b : ℕ) (ok : ℕ → Bool) → d.new ≡ copy w b s.now b (R.field_if is ok) }
{
    if is {
        numbers(w, Head::WIDTH, 1, s, d);
        return;
    }
    reserved(w, s, d);
}

// A sub's numbers up to its reserve, with its head's.
fn channel_numbers(w: Way, calibrated: bool, s: &[u8], d: &mut [u8])
    requires { Both 68 s.now d.old }
    ensures { (b : ℕ) → d.new ≡ copy w b s.now b (numbers_of calibrated) }
{
    numbers(
        w,
        Head::WIDTH,
        Channel::NUMBERS,
        &s[..Channel::CAL_FREQUENCY],
        &mut d[..Channel::CAL_FREQUENCY],
    );
    number_if(
        w,
        calibrated,
        &s[Channel::CAL_FREQUENCY..Channel::LOW_CUT],
        &mut d[Channel::CAL_FREQUENCY..Channel::LOW_CUT],
    );
    numbers(
        w,
        Head::WIDTH,
        Channel::CUTS,
        &s[Channel::LOW_CUT..Channel::SENSITIVITY],
        &mut d[Channel::LOW_CUT..Channel::SENSITIVITY],
    );
    number_if(
        w,
        calibrated,
        &s[Channel::SENSITIVITY..],
        &mut d[Channel::SENSITIVITY..],
    );
}

// A record 125, 325 or 355.
fn channel(w: Way, k: Shape, s: &[u8], d: &mut [u8])
    requires { Both 256 s.now d.old }
    ensures { (b room i : ℕ) (u : R.Sub) → HasShape u k → d.new ≡ copy w b s.now b (R.channel u room i) }
{
    channel_numbers(
        w,
        k.calibrated,
        &s[..Channel::RESERVE],
        &mut d[..Channel::RESERVE],
    );
    reserved(
        w,
        &s[Channel::RESERVE..Channel::LABEL],
        &mut d[Channel::RESERVE..Channel::LABEL],
    );
    copy_run(
        &s[Channel::LABEL..Channel::G1],
        &mut d[Channel::LABEL..Channel::G1],
    );
    number_if(
        w,
        k.wired,
        &s[Channel::G1..Channel::G2],
        &mut d[Channel::G1..Channel::G2],
    );
    number_if(
        w,
        k.wired,
        &s[Channel::G2..Channel::SPARE],
        &mut d[Channel::G2..Channel::SPARE],
    );
    reserved(
        w,
        &s[Channel::SPARE..Channel::COMMENT],
        &mut d[Channel::SPARE..Channel::COMMENT],
    );
    copy_run(&s[Channel::COMMENT..], &mut d[Channel::COMMENT..]);
}

// The body of a record 120, 320 or 350 of m subs.
pub fn channels_body(w: Way, k: Shape, m: u32, s: &[u8], d: &mut [u8])
    requires { Both (16 + 256 * m) s.now d.old }
    ensures { (b n : ℕ) (g : R.Group) → HasShape g.sub k → number_at w.from 4 s.now 0 ≡ m →
        d.new ≡ copy w b s.now b (R.channels_body g n) }
{
    let reserve = Channels::BODY_RESERVE;
    let mut at = Channels::BODY_SUBS;
    numbers(
        w,
        Head::WIDTH,
        Channels::NUMBERS,
        &s[..reserve],
        &mut d[..reserve],
    );
    reserved(w, &s[reserve..at], &mut d[reserve..at]);
    for _i in 0..m {
        let end = at + Channel::LENGTH;
        channel(w, k, &s[at..end], &mut d[at..end]);
        at = end;
    }
}

// The item at byte p of s: where the next one stands.
fn item(w: Way, s: &[u8], p: usize, d: &mut [u8]) -> usize
    requires { AtLeast p s.now d.old }
    ensures { (result ≤ length s.now) × ((b : ℕ) (ok : ℕ → Bool) (x : R.Item) (e : ℕ) →
        see w.from b s.now (b + p) (R.item ok (length s.now - p)) ≡ goes x e → (e ≡ b + result) ×
        (result ≡ p + R.item_size x) ×
        (d.new ≡ pasted d.old p (copy w b s.now (b + p) (R.item ok (length s.now - p))))) }
{
    let left = s.len() - p;
    if left < Item::LEAST {
        return p;
    }
    let size = number::<4>(w.from, s, p) as usize;
    if size < Item::LEAST {
        return p;
    }
    if left < size {
        return p;
    }
    let text = p + Item::TEXT;
    let end = p + size;
    numbers(w, Head::WIDTH, Item::NUMBERS, &s[p..text], &mut d[p..text]);
    copy_run(&s[text..end], &mut d[text..end]);
    end
}

// The body of a record 130 or 200.
pub fn items_body(w: Way, s: &[u8], d: &mut [u8])
    requires { AtLeast 8 s.now d.old }
    ensures { (b : ℕ) (ok : ℕ → Bool) (l : List R.Item) (e : ℕ) →
        see w.from b s.now b (R.items_body ok (16 + length s.now)) ≡ goes l e →
        d.new ≡ copy w b s.now b (R.items_body ok (16 + length s.now)) }
{
    let count = number::<4>(w.from, s, Items::BODY_COUNT);
    let reserve = Items::BODY_RESERVE;
    let mut p = Items::BODY_FIRST;
    numbers(
        w,
        Head::WIDTH,
        Items::NUMBERS,
        &s[..reserve],
        &mut d[..reserve],
    );
    reserved(w, &s[reserve..p], &mut d[reserve..p]);
    for _i in 0..count {
        p = item(w, s, p, d);
    }
}

// The samples, from byte p of s on, of the channel whose sub stands at byte q of the file, turned: where the next channel's stand.
fn channel_samples(w: Way, file: &[u8], q: usize, t: u32, s: &[u8], p: usize, d: &mut [u8]) -> usize
    requires part { SamplesPart file.now q t s.now p d.old }
    requires turned { same_order w.from w.to ≡ false }
    ensures { (result ≤ length s.now) × ((b : ℕ) (c : R.Channel) (cs : List R.Channel) →
        Kept w.from file.now q (c ∷ cs) → p + R.samples_in t c * R.width c.format ≤ length s.now →
        (result ≡ p + R.samples_in t c * R.width c.format) ×
        (d.new ≡ pasted d.old p (copy w b s.now (b + p) (R.number_list (R.width c.format) (R.samples_in t c))))) }
{
    let o = w.from;
    let flags = number::<4>(o, file, q + Channel::FLAGS);
    let format = number::<4>(o, file, q + Channel::FORMAT);
    let rate = number::<4>(o, file, q + Channel::RATE);
    let width = records::channels::width(format);
    let n = records::channels::samples_in(t, flags, rate);
    let bytes = n * width;
    if s.len() - p < bytes {
        return p;
    }
    let end = p + bytes;
    turn_run(width, n, &s[p..end], &mut d[p..end]);
    end
}

// The one width of the samples of the channels whose subs stand in the file, if they all have one.
pub fn widths_of(o: Order, file: &[u8], cs: Channels) -> Option<usize>
    requires { cs.subs + 256 * cs.count ≤ length file.now }
    ensures { result ≡ widths_in o file.now cs.subs cs.count }
{
    if cs.count == 0 {
        return None;
    }
    let mut sub = cs.subs;
    let width = records::channels::width(number::<4>(o, file, sub + Channel::FORMAT));
    for _i in 0..cs.count {
        if records::channels::width(number::<4>(o, file, sub + Channel::FORMAT)) != width {
            return None;
        }
        sub += Channel::LENGTH;
    }
    Some(width)
}

// The samples of a frame whose channels have one width, turned: they are one run.
fn one_run(w: Way, width: usize, s: &[u8], d: &mut [u8])
    requires part { OneWidth width s.now d.old }
    requires turned { same_order w.from w.to ≡ false }
    ensures { (b n : ℕ) → length s.now ≡ 8 + n * width →
        d.new ≡ pasted d.old 8 (copy w b s.now (b + 8) (R.number_list width n)) }
{
    let from = Frame::BODY_SAMPLES;
    let n = (s.len() - from) / width;
    let end = from + n * width;
    turn_run(width, n, &s[from..end], &mut d[from..end]);
}

// A frame's clock and its samples: as they are where the two orders are one, else turned in one run or channel by channel; the subs stand in the file.
pub fn frame_body(
    w: Way,
    file: &[u8],
    cs: Channels,
    widths: Option<usize>,
    t: u32,
    s: &[u8],
    d: &mut [u8],
)
    requires { FramePart w.from file.now cs widths t s.now d.old }
    ensures { (b : ℕ) (ch : List R.Channel) → length ch ≡ cs.count → Kept w.from file.now cs.subs ch →
        length s.now ≡ 8 + R.sample_bytes t ch → d.new ≡ copy w b s.now b (filling t ch) }
{
    let reserve = Frame::BODY_RESERVE;
    let mut p = Frame::BODY_SAMPLES;
    numbers(
        w,
        Frame::CLOCK_WIDTH,
        Frame::CLOCK_NUMBERS,
        &s[..reserve],
        &mut d[..reserve],
    );
    reserved(w, &s[reserve..p], &mut d[reserve..p]);
    if same_order(w.from, w.to) {
        copy_run(&s[p..], &mut d[p..]);
        return;
    }
    if let Some(width) = widths {
        one_run(w, width, s, d);
        return;
    }
    let mut q = cs.subs;
    for _i in 0..cs.count {
        p = channel_samples(w, file, q, t, s, p, d);
        q += Channel::LENGTH;
    }
}

// So many frames of this size, each with so many bytes of samples, have room in a body of so many bytes.
pub fn fits(bytes: usize, size: usize, count: u32, length: usize) -> bool
    requires { size < 4294967296 }
    ensures { result ≡ leb (24 + bytes) size && leb (16 + size * count) length }
{
    if size < Frame::SAMPLES {
        return false;
    }
    if size - Frame::SAMPLES < bytes {
        return false;
    }
    Frames::BODY_FIRST + size * count as usize <= length
}
