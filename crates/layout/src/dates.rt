// Days as numbers YYYYMMDD of the Gregorian calendar.
ghost use Rattle.std.specs.Prelude.{◌≡◌};
ghost use Rattle.layout.specs.Dates.{is_leap_year, month_length, is_day};

fn is_leap_year(year: u32) -> bool
    ensures { result ≡ is_leap_year year }
{
    if year % 400 == 0 {
        return true;
    }
    if year % 100 == 0 {
        return false;
    }
    year % 4 == 0
}

// How many days a month has, 0 where there is no such month. Up to July the odd months are long, from August on the even
// ones. With a `match` on the month a verdict took 2 % longer, and a total 3 %.
#[tactic(auto, using(crate::proofs::MonthRule::table_is_rule), unfolding(crate::specs::MonthRule::length_by_rule))]
pub fn month_length(year: u32, month: u32) -> u32
    ensures { result ≡ month_length year month }
{
    if month == 2 {
        if is_leap_year(year) {
            return 29;
        }
        return 28;
    }
    if month < 1 {
        return 0;
    }
    if 12 < month {
        return 0;
    }
    30 + (month + month / 8) % 2
}

// Whether a number YYYYMMDD is a real day of the years 1583 to 9999.
#[tactic(auto, unfolding(crate::specs::Dates::is_day))]
pub fn is_day(day: u32) -> bool
    ensures { result ≡ is_day day }
{
    let year = day / 10000;
    if year < 1583 {
        return false;
    }
    if 9999 < year {
        return false;
    }
    let in_month = day % 100;
    if in_month < 1 {
        return false;
    }
    in_month <= month_length(year, day / 100 % 100)
}
