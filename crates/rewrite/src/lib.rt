// Writes a file anew, in its one canonical form.
#![tactic(auto)]

pub mod frames;
pub mod recordings;

ghost use Rattle.std.specs.Prelude.{◌≡◌, length};
ghost use Rattle.judge.specs.Recorded.{HeaderIn};
ghost use Rattle.children.specs.Recordings.{OfFile};
ghost use Rattle.makers.specs.Makers.{first_maker};
ghost use Rattle.makers.specs.Search.{found};
ghost use Rattle.rewrite.specs.Rewrite.{barrier, Rewrites};

use rules::{Reason, Refusal};
use words::Order;

// The first maker's record, where the order asked for is not the file's.
fn in_the_way(o: Order, to: Order, file: &[u8], count: u32) -> Option<usize>
    requires { HeaderIn (length file.now) }
    ensures { OfFile o file.now count (λ rs. found result ≡ barrier o to (first_maker rs)) }
{
    if bodies::runs::same_order(o, to) {
        return None;
    }
    makers::first_maker(o, file, count)
}

// Judges the file, then writes its canonical form into `out`, in the order that the letter names.
pub fn rewrite(file: &[u8], order: u8, out: &mut [u8]) -> Result<usize, Refusal>
    ensures { Rewrites file.now order out.old out.new result }
{
    let h = judge::judge(file)?;
    let to = header::order_of(order as u32).ok_or(Refusal(Reason::Range, 0))?;
    let made = in_the_way(h.order, to, file, h.count);
    let need = recordings::file_length(h.order, h.heading.label, file, h.count);
    let size = permit::permit(made, need, out.len())?;
    recordings::file_anew(h.order, to, h.heading, file, h.count, out);
    Ok(size)
}
