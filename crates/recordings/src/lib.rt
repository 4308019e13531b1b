// The recording that a question asks about, in a file that is judged first.
#![tactic(auto)]

ghost use Rattle.std.specs.Prelude.{◌≡◌};
ghost use Rattle.rules.specs.Rules as R;
ghost use Rattle.recordings.specs.Found.{counts_of, Walkable, ReachedAs, RecordingFoundAs};

use descriptions::Places;
use judge::recording::recording_again;
use rules::{FileHeader, Label, Reason, Refusal};
use words::Order;

// M, F and T.
#[derive(Clone, Copy)]
pub struct Counts {
    pub channels: u32,
    pub frames: u32,
    pub seconds: u32,
}

pub fn facts_of(q: Places) -> Counts
    ensures { result ≡ counts_of q }
{
    Counts {
        channels: q.count,
        frames: q.total,
        seconds: q.seconds,
    }
}

// n is a number from 1 to count.
pub fn within(n: usize, count: u32) -> bool
    ensures { result ≡ R.between 1 count n }
{
    if n < 1 {
        return false;
    }
    n <= count as usize
}

// The recordings of an accepted file, one after the other: where recording n stands, or the refusal that was met on the way.
fn recordings_to(o: Order, label: Label, file: &[u8], n: u32) -> Result<Places, Refusal>
    requires { Walkable file.now n }
    ensures { ReachedAs o label file.now n result }
{
    let mut places = recording_again(o, label, file, FileHeader::LENGTH, None)?;
    for _i in 1..n {
        places = recording_again(o, label, file, places.end, Some(places))?;
    }
    Ok(places)
}

// Judges the file, and finds the recording asked for.
pub fn recording_asked(file: &[u8], recording: usize) -> Result<(Order, Places), Refusal>
    ensures { RecordingFoundAs file.now recording result }
{
    let h = judge::judge(file)?;
    if !within(recording, h.count) {
        return Err(Refusal(Reason::Range, 0));
    }
    let q = recordings_to(h.order, h.heading.label, file, recording as u32)?;
    Ok((h.order, q))
}
