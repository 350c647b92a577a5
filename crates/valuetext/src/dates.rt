//! Dates as text.

ghost use Rattle.std.specs.Prelude.{◌≡◌, ℤ, ℕ, List, IfSome, IsNone};
ghost use Rattle.jiff_core.specs.Calendar.{IsEpochDay};
ghost use Rattle.valuetext.specs.Dates.{IsDateText};

use arrayvec::ArrayString;
use jiff_core::civil::Date;
use jiff_fmt::temporal;
use jiff_fmt::temporal::DateTimePrinter;

/// The text of a day, which is counted from 1970-01-01. None exactly if the day lies outside the years 0001 to 9999.
pub fn date_text(day: i64) -> Option<ArrayString<13>>
    ensures text { IfSome result (λ t. IsDateText day t.bytes) }
    ensures none { IsNone result → (text : List ℕ) → ¬ (IsDateText day text) }
{
    let Ok(date) = Date::from_unix_epoch_day(day) else {
        return None;
    };
    if date.year < 1 {
        return None;
    }
    Some(DateTimePrinter::new().date_text(date))
}

/// The day that a text is, counted from 1970-01-01. None exactly if it is the text of no day.
pub fn read_date(text: &[u8]) -> Option<i32>
    ensures day { IfSome result (λ day. IsDateText day text.now) }
    ensures bound { IfSome result IsEpochDay }
    ensures none { IsNone result → (day : ℤ) → ¬ (IsDateText day text.now) }
{
    let Ok(date) = temporal::parse_date(text) else {
        return None;
    };
    if date.year < 1 {
        return None;
    }
    let printed = DateTimePrinter::new().date_text(date);
    if printed.as_bytes() != text {
        return None;
    }
    Some(date.to_unix_epoch_day())
}
