// The table of a file's records: four signed numbers a record, by position.
#![tactic(auto)]

ghost use Rattle.table.specs.Table.{Lists};

use rules::{Reason, Refusal};

// Judges the file, then writes its records' position, length, code and serial into `out`.
pub fn table(file: &[u8], out: &mut [i64]) -> Result<usize, Refusal>
    ensures { Lists file.now out.old out.new result }
{
    let h = judge::judge(file)?;
    let order = h.order;
    let need = rows::file_rows(order, file, h.count, out, false);
    if out.len() < need {
        return Err(Refusal(Reason::Room, need));
    }
    Ok(rows::file_rows(order, file, h.count, out, true) / 4)
}
