// A recording from its 140 on: the signals, the delimiter and the padding.
#![tactic(auto)]

pub mod frames;

ghost use Rattle.std.specs.Prelude.{◌≡◌, ◌+◌, length};
ghost use Rattle.words.specs.declared.Order.{Order};
ghost use Rattle.records.specs.Says.{tested};
ghost use Rattle.signals.specs.FramesJudged.{SignalsIn};
ghost use Rattle.signals.specs.Signaled.{SignalsOf, ClosedIn, closing_tests};

use records::kinds::has_code;
use rules::{Basic, Channels, Frames, Head, Kind, Label, Reason, Recording, Refusal};
use words::Order;

// What follows the delimiter, which stops at byte `end`: the content's limit, and the padding.
fn closed(s: &[u8], base: usize, end: usize, padded: usize, multiplier: u32) -> Result<(), Refusal>
    requires { ClosedIn base s.now end }
    ensures { (o : Order) → closing_tests o base s.now end padded multiplier ≡ tested result (base + length s.now) }
{
    if Recording::CONTENT_LIMIT < records::less(Head::LENGTH + end, padded) {
        return Err(Refusal(Reason::Disagreement, base - Head::LENGTH));
    }
    if !records::pad_ok(multiplier, s.len() - end) {
        return Err(Refusal(Reason::Length, base + end));
    }
    records::padding(s, base, end, s.len())
}

// From the record where the 140 should stand, whose head is h; s is the recording's body.
pub fn signals(
    o: Order,
    label: Label,
    file: &[u8],
    cs: Channels,
    own: bool,
    b: Basic,
    h: Head,
    s: &[u8],
    base: usize,
    multiplier: u32,
) -> Result<(Frames, usize), Refusal>
    requires { SignalsIn file.now cs b h base s.now }
    ensures { SignalsOf o label file.now cs own b h base s.now multiplier result }
{
    if !has_code(Kind::Frames(label), h.code) {
        return Err(Refusal(Reason::Code, base + h.at + Head::CODE));
    }
    let (f, end) = crate::frames::frames_at(o, label, file, cs, own, b, s, base, h)?;
    let d = records::makers::next_head(o, label, s, base, end)?;
    records::delimiter::delimiter(d, base)?;
    closed(s, base, d.at + Head::LENGTH, f.padded, multiplier)?;
    Ok((f, end))
}
