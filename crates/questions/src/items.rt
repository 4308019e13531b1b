// The items of records 130 and 200. What is read is safe for any bytes; that it is the item is said of what the walk accepted.
ghost use Rattle.std.specs.Prelude.{◌≡◌, ◌≤◌, length};
ghost use Rattle.recordings.specs.Answers.{meaning};
ghost use Rattle.questions.specs.Questions.{item_of};
ghost use Rattle.questions.specs.Holding.{PlaceOf, TellsItem, holding_of};

use crate::channels::Text;
use descriptions::Places;
use records::items::Holder;
use rules::{Item, Items, Reason, Refusal};
use words::{Order, int, number};

#[derive(Clone, Copy)]
pub struct Entry {
    pub code: i32,
    pub text: Text,
}

// Where the item n places behind the one at byte `first` of s stands.
fn item_place(o: Order, s: &[u8], first: usize, n: usize) -> usize
    requires { first ≤ length s.now }
    ensures { PlaceOf o s.now first n result }
{
    let mut p = first;
    for _i in 0..n {
        if s.len() - p < Item::LEAST {
            return p;
        }
        let size = number::<4>(o, s, p) as usize;
        if s.len() - p < size {
            return p;
        }
        p += size;
    }
    p
}

// The item of this number, from 1, in the record 130 or 200 at byte `at` of s.
fn item_in(o: Order, s: &[u8], at: usize, item: usize) -> Result<Entry, Refusal>
    requires { at ≤ length s.now }
    ensures { TellsItem o s.now at item result }
{
    if s.len() - at < Items::FIRST {
        return Err(Refusal(Reason::Range, 0));
    }
    let count = number::<4>(o, s, at + Items::COUNT);
    if !recordings::within(item, count) {
        return Err(Refusal(Reason::Range, 0));
    }
    let p = item_place(o, s, at + Items::FIRST, item - 1);
    if s.len() - p < Item::LEAST {
        return Err(Refusal(Reason::Range, 0));
    }
    let size = number::<4>(o, s, p) as usize;
    let code = int::<4>(o, s, p + Item::CODE);
    let text = Text {
        at: p + Item::TEXT,
        length: records::less(size, Item::TEXT),
    };
    Ok(Entry { code, text })
}

// Where the record of these items stands that holds for a recording.
fn holding(k: Holder, q: Places) -> Option<usize>
    ensures { result ≡ holding_of k q }
{
    match k {
        Holder::Patient => Some(q.patient),
        Holder::Event => q.events,
    }
}

// An item that holds for a recording. An absent 200 has none.
pub fn item_asked(file: &[u8], k: Holder, recording: usize, item: usize) -> Result<Entry, Refusal>
    ensures { meaning result ≡ item_of k file.now recording item }
{
    let (order, q) = recordings::recording_asked(file, recording)?;
    let at = holding(k, q).ok_or(Refusal(Reason::Range, 0))?;
    item_in(order, file, at, item)
}
