// The descriptions of a recording: record 100, and 120 or 320, 130, 200 and 350, each of which may be absent.
#![tactic(auto)]

ghost use Rattle.std.specs.Prelude.{◌≡◌, ◌||◌, eqb, ◌+◌, ◌<◌};
ghost use Rattle.words.specs.Sizes.{Addressable};
ghost use Rattle.walk.specs.Walk.{pick};
ghost use Rattle.rules.specs.Rules as R;
ghost use Rattle.records.specs.Asks.{HeadIn, BytesIn};
ghost use Rattle.records.specs.Says.{subs_at};
ghost use Rattle.descriptions.specs.DescriptionsJudged.{channels_in, patient_in, count_in, kind_of, lacking, own_place};
ghost use Rattle.descriptions.specs.DescriptionsJudged.{group_for, BodyAt, Behind, ChannelsPart, MontagePart, ItemsPart, EventsPart, DescriptionsOf};

use records::channels::group_code;
use records::items::Holder;
use records::kinds::has_code;
use rules::{
    Basic, Channels, Events, Form, Group, Head, Kind, Label, Montage, Patient, Reason, Refusal,
};
use versions::allows;
use words::Order;

// Where a recording stands, and the records that hold for it.
#[derive(Clone, Copy)]
pub struct Places {
    pub start: usize,
    pub end: usize,
    pub channels: usize,
    pub count: u32,
    pub patient: usize,
    pub events: Option<usize>,
    pub montage: Option<usize>,
    pub frames: usize,
    pub frame: usize,
    pub total: u32,
    pub seconds: u32,
}

// A part that may be absent: whether it is there, where the one that holds stands, and the head behind it.
#[derive(Clone, Copy)]
pub struct Part {
    pub own: bool,
    pub at: usize,
    pub next: Head,
}

// The parts before the 140, and its head; `count` is how many channels hold.
#[derive(Clone, Copy)]
pub struct Described {
    pub basic: Basic,
    pub own: bool,
    pub channels: usize,
    pub count: u32,
    pub patient: usize,
    pub events: Option<usize>,
    pub montage: Option<usize>,
    pub next: Head,
}

fn held_channels(b: Option<Places>) -> Option<usize>
    ensures { result ≡ channels_in b }
{
    b.map(|p| p.channels)
}

fn held_patient(b: Option<Places>) -> Option<usize>
    ensures { result ≡ patient_in b }
{
    b.map(|p| p.patient)
}

fn held_count(b: Option<Places>) -> u32
    ensures { result ≡ count_in b }
{
    b.map_or(0, |p| p.count)
}

// How many channels hold: as many as record 100 says, or those taken over.
fn count_of(own: bool, channels: u32, before: Option<Places>) -> u32
    ensures { result ≡ pick own channels (count_in before) }
{
    if own {
        return channels;
    }
    held_count(before)
}

fn kind_of(k: Holder) -> Kind
    ensures { result ≡ kind_of k }
{
    match k {
        Holder::Patient => Kind::Items(Patient::CODE),
        Holder::Event => Kind::Items(Events::CODE),
    }
}

// A part that is absent: what holds in its place, or the refusal of the head that stands there.
fn absent(base: usize, h: Head, held: Option<usize>) -> Result<Part, Refusal>
    requires { Addressable (base + (h.at + 4)) }
    ensures { result ≡ lacking base h held }
{
    let at = held.ok_or(Refusal(Reason::Code, base + h.at + Head::CODE))?;
    Ok(Part {
        own: false,
        at,
        next: h,
    })
}

// A part that stands at byte `at` and stops at byte `end`: the head of the next record.
fn behind(
    o: Order,
    label: Label,
    s: &[u8],
    base: usize,
    at: usize,
    end: usize,
) -> Result<Part, Refusal>
    requires { BytesIn base s.now at end }
    ensures { Behind o label base s.now at end result }
{
    let next = records::makers::next_head(o, label, s, base, end)?;
    Ok(Part {
        own: true,
        at: base + at,
        next,
    })
}

// Where a part stands that is there.
fn own_place(t: Part) -> Option<usize>
    ensures { result ≡ own_place t }
{
    t.own.then_some(t.at)
}

// The record 120 or 320 of a file with this label, of so many channels.
fn group_for(label: Label, channels: u32) -> Group
    ensures { result ≡ group_for label channels }
{
    let version = label.version;
    let form = label.form;
    match form {
        Form::Channels => Group::Channels(version, channels),
        Form::Electrodes => Group::Electrodes(version, channels),
    }
}

fn channels_part(
    o: Order,
    label: Label,
    s: &[u8],
    base: usize,
    h: Head,
    channels: u32,
    held: Option<usize>,
) -> Result<Part, Refusal>
    requires { HeadIn base s.now h }
    ensures { ChannelsPart o label base s.now h channels held result }
{
    let g = group_for(label, channels);
    if !has_code(Kind::Channels(group_code(g)), h.code) {
        return absent(base, h, held);
    }
    let end = records::channels::channels_at(o, g, s, base, h)?;
    behind(o, label, s, base, h.at, end)
}

fn items_part(
    o: Order,
    label: Label,
    k: Holder,
    s: &[u8],
    base: usize,
    h: Head,
    held: Option<usize>,
) -> Result<Part, Refusal>
    requires { HeadIn base s.now h }
    ensures { ItemsPart o label k base s.now h held result }
{
    if !has_code(kind_of(k), h.code) {
        return absent(base, h, held);
    }
    let end = records::items::items_at(o, k, s, base, h)?;
    behind(o, label, s, base, h.at, end)
}

// A record with this code may stand where the 200 should.
fn table_ok(label: Label, code: u32) -> bool
    ensures { result ≡ ((R.allowed label).eventless || eqb code 200) }
{
    if code == Events::CODE {
        return true;
    }
    let version = label.version;
    let allowed = allows(version);
    allowed.eventless
}

// The record 200: where the version does not allow a recording without one, another record in its place is refused.
fn events_part(o: Order, label: Label, s: &[u8], base: usize, h: Head) -> Result<Part, Refusal>
    requires { HeadIn base s.now h }
    ensures { EventsPart o label base s.now h result }
{
    if !table_ok(label, h.code) {
        return Err(Refusal(Reason::Code, base + h.at + Head::CODE));
    }
    items_part(o, label, Holder::Event, s, base, h, Some(0))
}

// The record 350, over so many electrodes: there is none in form 00.
fn montage_part(
    o: Order,
    label: Label,
    s: &[u8],
    base: usize,
    h: Head,
    electrodes: u32,
) -> Result<Part, Refusal>
    requires { HeadIn base s.now h }
    ensures { MontagePart o label base s.now h electrodes result }
{
    if !has_code(Kind::Channels(Montage::CODE), h.code) {
        return absent(base, h, Some(0));
    }
    let form = label.form;
    let Form::Electrodes = form else {
        return Err(Refusal(Reason::Code, base + h.at + Head::CODE));
    };
    let end = records::channels::channels_at(o, Group::Montage(electrodes), s, base, h)?;
    behind(o, label, s, base, h.at, end)
}

// Judges the descriptions of the recording whose body is s, which stands at `base` in the file.
pub fn judge_descriptions(
    o: Order,
    label: Label,
    s: &[u8],
    base: usize,
    before: Option<Places>,
) -> Result<Described, Refusal>
    requires { BodyAt base s.now }
    ensures { DescriptionsOf o label base s.now before result }
{
    let basic = records::basic::basic_at(o, s, base, 0)?;
    let h = records::makers::next_head(o, label, s, base, Basic::LENGTH)?;
    let c = channels_part(o, label, s, base, h, basic.channels, held_channels(before))?;
    let p = items_part(
        o,
        label,
        Holder::Patient,
        s,
        base,
        c.next,
        held_patient(before),
    )?;
    let e = events_part(o, label, s, base, p.next)?;
    let count = count_of(c.own, basic.channels, before);
    let m = montage_part(o, label, s, base, e.next, count)?;
    let next = m.next;
    Ok(Described {
        basic,
        own: c.own,
        channels: c.at,
        count,
        patient: p.at,
        events: own_place(e),
        montage: own_place(m),
        next,
    })
}

// The channels of a recording: its own, or those taken over.
pub fn channels_of(t: Described) -> Channels
    requires { t.channels + 32 < 18446744073709551616 }
    ensures { result ≡ subs_at t.channels t.count }
{
    Channels {
        subs: t.channels + Channels::SUBS,
        count: t.count,
    }
}
