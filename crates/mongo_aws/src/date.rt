// The date of a signature (ISO 8601, basic format).

ghost use Rattle.std.specs.Prelude.{◌≡◌};
ghost use Rattle.std.specs.Str.{IsAscii};
ghost use Rattle.mongo_aws.specs.Date.{IsDateOf, civil_of, date_text, digit};
ghost use Rattle.mongo_sasl.specs.Moment.{milliseconds_of};

use jiff::Timestamp;
use jiff::civil::DateTime;
use jiff::tz::Offset;
use mongo_sasl::Moment;

/// The length of a day, with which a date begins.
pub(crate) const DAY_LENGTH: usize = 8;

/// The date of a moment, `YYYYMMDDTHHMMSSZ`, in UTC: the second that it is in.
pub(crate) fn date_of(moment: Moment) -> [u8; 16]
    ensures date { IsDateOf (milliseconds_of moment) result }
    ensures ascii { IsAscii result }
{
    match Timestamp::from_millisecond(moment.ms()) {
        Ok(instant) => date_text(Offset::UTC.to_datetime(instant)),
        Err(_) => unreachable!(),
    }
}

// What a clock shows, as a date's text.
fn date_text(utc: DateTime) -> [u8; 16]
    ensures text { result ≡ date_text (civil_of utc) }
{
    let year = utc.year().unsigned_abs();
    let month = utc.month().unsigned_abs();
    let day = utc.day().unsigned_abs();
    let hour = utc.hour().unsigned_abs();
    let minute = utc.minute().unsigned_abs();
    let second = utc.second().unsigned_abs();
    [
        digit(year / 1000),
        digit(year / 100),
        digit(year / 10),
        digit(year),
        digit(month as u16 / 10),
        digit(month as u16),
        digit(day as u16 / 10),
        digit(day as u16),
        b'T',
        digit(hour as u16 / 10),
        digit(hour as u16),
        digit(minute as u16 / 10),
        digit(minute as u16),
        digit(second as u16 / 10),
        digit(second as u16),
        b'Z',
    ]
}

// The last decimal digit of a number.
fn digit(number: u16) -> u8
    ensures { result ≡ digit number }
{
    b'0' + (number % 10) as u8
}
