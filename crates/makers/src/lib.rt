// The first maker's record of a file, which stands in the way of turning it.
// Every function is safe for any bytes; what it finds is said of what was accepted.
#![tactic(auto)]

ghost use Rattle.std.specs.Prelude.{◌≡◌, ◌+◌, length};
ghost use Rattle.words.specs.Sizes.{Addressable};
ghost use Rattle.records.specs.Asks.{PartAt};
ghost use Rattle.judge.specs.Recorded.{HeaderIn};
ghost use Rattle.children.specs.Recordings.{OfBody, OfFile};
ghost use Rattle.makers.specs.Search.{First, SearchedAs};

use rules::{FileHeader, Head};
use words::Order;

// What was found in a recording, and where it ends.
#[derive(Clone, Copy)]
pub struct Searched {
    pub found: Option<usize>,
    pub end: usize,
}

// The first maker's record in a recording's body, which stands at `base`.
fn in_body(o: Order, s: &[u8], base: usize) -> Option<usize>
    requires { Addressable (base + length s.now) }
    ensures { OfBody o base s.now (First result) }
{
    let mut p: usize = 0;
    // From record to record by their lengths: there is no count.
    loop {
        let (h, end) = children::record_at(o, s, base, p)?;
        if records::makers::maker_code(h.code) {
            return Some(base + p + Head::CODE);
        }
        p = end;
    }
}

// The first maker's record in the recording at byte p of the file.
fn in_recording(o: Order, file: &[u8], p: usize) -> Searched
    requires { PartAt 0 file.now p }
    ensures { SearchedAs o file.now p result }
{
    let Some((_, end)) = children::record_at(o, file, 0, p) else {
        return Searched {
            found: None,
            end: p,
        };
    };
    let base = p + Head::LENGTH;
    let found = in_body(o, &file[base..end], base);
    Searched { found, end }
}

// The first maker's record of a file with so many recordings.
pub fn first_maker(o: Order, file: &[u8], count: u32) -> Option<usize>
    requires { HeaderIn (length file.now) }
    ensures { OfFile o file.now count (First result) }
{
    let mut p = FileHeader::LENGTH;
    for _i in 0..count {
        let e = in_recording(o, file, p);
        if let Some(place) = e.found {
            return Some(place);
        }
        p = e.end;
    }
    None
}
