// Judges a file by document 01: accepted, or refused by a number and a position.
#![tactic(auto)]

pub mod recording;

ghost use Rattle.std.specs.Prelude.{◌≡◌, ◌-◌, length};
ghost use Rattle.std.proofs.Math.Option.{none};
ghost use Rattle.rules.specs.Rules as R;
ghost use Rattle.records.specs.Says.{Beyond, StepOver};
ghost use Rattle.judge.specs.Judged.{JudgedAs};
ghost use Rattle.judge.specs.Recorded.{HeaderIn};

use rules::{FileHeader, Label, Reason, Refusal};
use words::Order;

// So many recordings from byte 32 of the file on: where they end.
fn recordings_from(o: Order, label: Label, file: &[u8], count: u32) -> Result<usize, Refusal>
    requires { HeaderIn (length file.now) }
    ensures { StepOver o 0 file.now 32
        (R.recordings label count none (length file.now - 32) 1) (Beyond 32 (length file.now)) result }
{
    let mut p: usize = FileHeader::LENGTH;
    let mut before = None;
    for i in 0..count {
        let places = recording::recording_at(o, label, file, p, i + 1, before)?;
        p = places.end;
        before = Some(places);
    }
    Ok(p)
}

// The verdict on a file.
pub fn judge(file: &[u8]) -> Result<FileHeader, Refusal>
    ensures { JudgedAs file.now result }
{
    let h = header::file_header(file)?;
    let end = recordings_from(h.order, h.heading.label, file, h.count)?;
    if end < file.len() {
        return Err(Refusal(Reason::Behind, end));
    }
    Ok(h)
}
