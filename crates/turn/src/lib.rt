// Turns a file to the other byte order.
#![tactic(auto)]

pub mod frames;
pub mod recordings;

ghost use Rattle.turn.specs.Turn.{Turns};

use rules::Refusal;

// Judges the file, then writes it in the other byte order into `out`.
pub fn turn(file: &[u8], out: &mut [u8]) -> Result<usize, Refusal>
    ensures { Turns file.now out.old out.new result }
{
    let h = judge::judge(file)?;
    let made = makers::first_maker(h.order, file, h.count);
    let size = permit::permit(made, file.len(), out.len())?;
    recordings::file_turned(h.order, h.heading.label, file, h.count, out);
    Ok(size)
}
