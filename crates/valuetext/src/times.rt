//! Times of day as text.

ghost use Rattle.std.specs.Prelude.{◌≡◌, ◌≤◌, ℤ, ℕ, List, pos, ◌<ℤ◌, ◌≤ℤ◌, ◌⊎◌, None, ◌↔◌, IsTrue, IfSome, IsNone};
ghost use Rattle.jiff_fmt.specs.Text as printed;
ghost use Rattle.valuetext.specs.Units.{unit_places, per_day};
ghost use Rattle.valuetext.specs.Times.{IsTimeText, ReadsTime, IsInPlaces};

use crate::unit::TimeUnit;
use arrayvec::ArrayString;
use jiff_core::civil::Time;
use jiff_fmt::temporal;
use jiff_fmt::temporal::DateTimePrinter;

/// The text of a number of units since midnight. None exactly if it lies outside a day.
pub fn time_text(number: i64, unit: TimeUnit) -> Option<ArrayString<18>>
    ensures text { IfSome result (λ t. IsTimeText unit number t.bytes) }
    ensures none { IsNone result → (text : List ℕ) → ¬ (IsTimeText unit number text) }
{
    if number < 0 || number >= unit.per_day() {
        return None;
    }
    let time = Time::from_nanosecond(number as u64 * unit.nanos());
    Some(DateTimePrinter::new().time_text(time))
}

/// Whether the text writes the time with so many places of a fraction, which leave nothing of it out.
fn is_in_places(time: Time, text: &[u8], places: u8) -> bool
    requires { (1 ≤ places) × (places ≤ 9) }
    ensures { IsTrue result ↔ IsInPlaces time places text.now }
{
    if time.subsec_nanosecond % 10_u32.pow(9 - places as u32) != 0 {
        return false;
    }
    let printed = DateTimePrinter::new()
        .precision(Some(places))
        .time_text(time);
    printed.as_bytes() == text
}

/// Whether the text writes the time with a fraction of as many places as the unit has, or fewer.
fn is_in_some_places(time: Time, text: &[u8], unit: TimeUnit) -> bool
    ensures { IsTrue result ↔ ((places : ℕ) × (places ≤ unit_places unit) × IsInPlaces time places text.now) }
{
    if text.len() < 10 {
        return false;
    }
    let places = text.len() - 9;
    if places > unit.places() as usize {
        return false;
    }
    is_in_places(time, text, places as u8)
}

/// Whether the text writes the time, with zeros at the end of a fraction of at most as many places as the unit has.
fn is_written(time: Time, text: &[u8], unit: TimeUnit) -> bool
    ensures { IsTrue result ↔ ((text.now ≡ printed.time_text None time) ⊎ ((places : ℕ) × (places ≤ unit_places unit) × IsInPlaces time places text.now)) }
{
    let printed = DateTimePrinter::new().time_text(time);
    if printed.as_bytes() == text {
        return true;
    }
    is_in_some_places(time, text, unit)
}

/// The number of units since midnight that a text is read as. None exactly if it is read as none.
pub fn read_time(text: &[u8], unit: TimeUnit) -> Option<i64>
    ensures number { IfSome result (λ number. ReadsTime unit number text.now) }
    ensures bound { IfSome result (λ number. (pos 0 ≤ℤ number) × (number <ℤ pos (per_day unit))) }
    ensures none { IsNone result → (number : ℤ) → ¬ (ReadsTime unit number text.now) }
{
    let Ok(time) = temporal::parse_time(text) else {
        return None;
    };
    if !is_written(time, text, unit) {
        return None;
    }
    let nanos = time.to_nanosecond();
    if nanos % unit.nanos() != 0 {
        return None;
    }
    Some((nanos / unit.nanos()) as i64)
}
