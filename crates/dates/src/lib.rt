// Whether three numbers are a date. It takes nothing but the numbers and uses no other crate's code, so that a recorder's firmware can have it as it is.
#![tactic(auto)]

ghost use Rattle.std.specs.Prelude.{◌≡◌, ◌≤◌};
ghost use Rattle.rules.specs.Rules as R;
ghost use Rattle.dates.specs.Dates.{date_of};

// The first of the three numbers that no date has.
#[derive(Clone, Copy, Debug, PartialEq, Eq)]
pub enum WrongDate {
    Year,
    Month,
    Day,
}

fn leap(y: u32) -> bool
    ensures { result ≡ R.leap y }
{
    y % 4 == 0 && (y % 100 != 0 || y % 400 == 0)
}

// January has 31 days, the next month 30, and so on by turns; August, seven months later, begins anew with 31.
// The remainder by 7 counts the months since the turns began, so an odd count is a month of 30 days. February stands apart.
fn days_in(y: u32, m: u32) -> u32
    requires { m ≤ 12 }
    ensures { result ≡ R.days_in y m }
{
    if m != 2 {
        return 31 - (m + 6) % 7 % 2;
    }
    if leap(y) {
        return 29;
    }
    28
}

// 0 without a year, else from 1 up to `high`.
fn dated(y: u32, high: u32, n: u32) -> bool
    ensures { result ≡ R.dated y high n }
{
    if y == 0 {
        return n == 0;
    }
    (1..=high).contains(&n)
}

pub fn judge_date(year: u32, month: u32, day: u32) -> Result<(), WrongDate>
    ensures { result ≡ date_of year month day }
{
    if 9999 < year {
        return Err(WrongDate::Year);
    }
    if !dated(year, 12, month) {
        return Err(WrongDate::Month);
    }
    if !dated(year, days_in(year, month), day) {
        return Err(WrongDate::Day);
    }
    Ok(())
}
