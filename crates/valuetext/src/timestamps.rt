//! Timestamps as text.

ghost use Rattle.std.specs.Prelude.{◌≡◌, ◌≤◌, ◌++◌, ◌∷◌, [], ◌^◌, ℕ, ℤ, pos, neg_ℤ, ◌+ℤ◌, ◌*ℤ◌, ◌≤ℤ◌, ◌<ℤ◌, List, length, IfSome, IsNone};
ghost use Rattle.jiff_core.specs.Calendar.{IsBetween, IsEpochDay};
ghost use Rattle.jiff_core.specs.Timestamp.{IsOffsetSeconds};
ghost use Rattle.valuetext.specs.Units.{per_second, per_day};
ghost use Rattle.valuetext.specs.Timestamps as stamps;
ghost use Rattle.valuetext.specs.Timestamps.{IsTimestampText, ReadsTimestamp, IsZone};

use crate::dates::{date_text, read_date};
use crate::times::{read_time, time_text};
use crate::unit::TimeUnit;
use arrayvec::ArrayString;
use jiff_fmt::offset::Parser;

/// A date, T, a time and Z.
fn joined(date: &str, clock: &str) -> ArrayString<33>
    requires date { length date.now ≤ 13 }
    requires clock { length clock.now ≤ 18 }
    ensures { result.bytes ≡ date.now ++ 84 ∷ (clock.now ++ 90 ∷ []) }
{
    let mut text = ArrayString::new();
    text.push_str(date);
    text.push('T');
    text.push_str(clock);
    text.push('Z');
    text
}

/// The day and the time of day that a number of units since 1970-01-01T00:00:00 is.
fn moment_of(number: i64, unit: TimeUnit) -> (i64, i64)
    ensures moment { stamps.IsMoment unit number result.0 result.1 }
    ensures day { IsBetween (neg_ℤ (pos (2 ^ 62))) (pos (2 ^ 62)) result.0 }
    ensures time { (pos 0 ≤ℤ result.1) × (result.1 <ℤ pos (per_day unit)) }
    ensures bound { result.1 ≤ℤ pos 86_400_000_000 }
{
    match unit {
        TimeUnit::Millis => (number.div_euclid(86_400_000), number.rem_euclid(86_400_000)),
        TimeUnit::Micros => (
            number.div_euclid(86_400_000_000),
            number.rem_euclid(86_400_000_000),
        ),
    }
}

/// The text of a number of units since 1970-01-01T00:00:00Z. None exactly if its date lies outside the years 0001 to 9999.
pub fn timestamp_text(number: i64, unit: TimeUnit) -> Option<ArrayString<33>>
    ensures text { IfSome result (λ t. IsTimestampText unit number t.bytes) }
    ensures none { IsNone result → (text : List ℕ) → ¬ (IsTimestampText unit number text) }
{
    let (day, time) = moment_of(number, unit);
    let Some(date) = date_text(day) else {
        return None;
    };
    let Some(clock) = time_text(time, unit) else {
        return None;
    };
    Some(joined(date.as_str(), clock.as_str()))
}

/// The byte so many before the end of a text, or the first one; 0 for no text.
fn byte_from_end(text: &[u8], n: usize) -> u8
    ensures { result ≡ stamps.byte_from_end text.now n }
{
    match text.get(text.len().saturating_sub(n)) {
        Some(byte) => *byte,
        None => 0,
    }
}

/// Whether a byte is a plus or a minus sign.
fn is_sign(byte: u8) -> bool
    ensures { result ≡ stamps.is_sign byte }
{
    byte == b'+' || byte == b'-'
}

/// How many bytes at the end of a timestamp's text are its zone.
fn zone_length(text: &[u8]) -> usize
    ensures value { result ≡ stamps.zone_length text.now }
    ensures bound { result ≤ 6 }
{
    if byte_from_end(text, 1) == b'Z' {
        1
    } else if is_sign(byte_from_end(text, 6)) {
        6
    } else if is_sign(byte_from_end(text, 3)) {
        3
    } else {
        0
    }
}

/// How many seconds an offset, or nothing, is ahead of UTC. None exactly if the text is neither.
fn seconds_ahead(text: &[u8]) -> Option<i32>
    ensures seconds { IfSome result (λ seconds. IsZone seconds text.now) }
    ensures bound { IfSome result IsOffsetSeconds }
    ensures none { IsNone result → (seconds : ℤ) → ¬ (IsZone seconds text.now) }
{
    let Ok((parsed, rest)) = Parser::DATETIME.parse_optional(text) else {
        return None;
    };
    if !rest.is_empty() {
        return None;
    }
    let Some(parsed) = parsed else {
        return Some(0);
    };
    match parsed.to_offset() {
        Ok(offset) => Some(offset.seconds),
        Err(_) => None,
    }
}

/// The number of units that a day, a time of it and a distance from UTC make.
fn number_of(day: i32, time: i64, seconds: i32, unit: TimeUnit) -> i64
    requires day { IsEpochDay day }
    requires time { (pos 0 ≤ℤ time) × (time <ℤ pos (per_day unit)) }
    requires seconds { IsOffsetSeconds seconds }
    ensures moment { stamps.IsMoment unit (result +ℤ seconds *ℤ pos (per_second unit)) day time }
    ensures bound { IsBetween (neg_ℤ (pos (2 ^ 62))) (pos (2 ^ 62)) result }
{
    match unit {
        TimeUnit::Millis => day as i64 * 86_400_000 + time - seconds as i64 * 1_000,
        TimeUnit::Micros => day as i64 * 86_400_000_000 + time - seconds as i64 * 1_000_000,
    }
}

/// The number of units since 1970-01-01T00:00:00Z that a text is read as. None exactly if it is read as none.
pub fn read_timestamp(text: &[u8], unit: TimeUnit) -> Option<i64>
    ensures number { IfSome result (λ number. ReadsTimestamp unit number text.now) }
    ensures none { IsNone result → (number : ℤ) → ¬ (ReadsTimestamp unit number text.now) }
{
    let zone = zone_length(text);
    if text.len() < 19 + zone {
        return None;
    }
    let end = text.len() - zone;
    let Some(day) = read_date(&text[..10]) else {
        return None;
    };
    if text[10] != b'T' && text[10] != b' ' {
        return None;
    }
    let front = &text[..end];
    let Some(time) = read_time(&front[11..], unit) else {
        return None;
    };
    let Some(seconds) = seconds_ahead(&text[end..]) else {
        return None;
    };
    Some(number_of(day, time, seconds, unit))
}
