ghost use Rattle.std.specs.Prelude.{◌≡◌, ◌<◌, pos, is_err};
ghost use Rattle.kt_report.specs.Common.{epoch_day, Emits, printable_moment, IsDateOf, time_of_day_bytes, date_bytes, moment_bytes, last_digit, two_digits, three_digits, four_digits, seconds_bytes};

use jiff::ToSpan;
use jiff::civil::{Date, date};
use kt_base::{Decimal, LATEST_MOMENT_MILLIS, OutputFault, emit, emit_all};
use std::io::Write;

/// Returns the last decimal digit of `n`, in ASCII.
fn last_digit(n: u64) -> u8
    ensures { result ≡ last_digit n }
{
    b'0' + (n % 10) as u8
}

/// Returns the last two decimal digits of `n`, in ASCII.
pub fn two_digits(n: u64) -> [u8; 2]
    ensures { result ≡ two_digits n }
{
    [last_digit(n / 10), last_digit(n)]
}

/// Returns the last three decimal digits of `n`, in ASCII.
pub fn three_digits(n: u64) -> [u8; 3]
    ensures { result ≡ three_digits n }
{
    [last_digit(n / 100), last_digit(n / 10), last_digit(n)]
}

/// Returns the last four decimal digits of `n`, in ASCII.
pub fn four_digits(n: u64) -> [u8; 4]
    ensures { result ≡ four_digits n }
{
    [
        last_digit(n / 1000),
        last_digit(n / 100),
        last_digit(n / 10),
        last_digit(n),
    ]
}

/// Writes a duration of `millis` milliseconds as a number of seconds, with three digits after the
/// point.
///
/// # Errors
///
/// - `OutputFault`: a write fails.
pub fn write_seconds<W: Write>(millis: u128, out: &mut W) -> Result<(), OutputFault>
    ensures { Emits (W.contents out.old) (W.contents out.new) (is_err result) (seconds_bytes millis) }
{
    let whole = Decimal::from_u128(millis / 1000);
    let rest = three_digits((millis % 1000) as u64);
    emit_all(&[whole.as_bytes(), b".", &rest], out)
}

/// The length of a day, in milliseconds.
const MILLIS_PER_DAY: u64 = 86_400_000;

/// Returns the timestamp `moment`, or the last timestamp of the year 9999 if `moment` is later.
///
/// Both are in milliseconds since 1970 in UTC.
fn printable_moment(moment: u64) -> u64
    ensures { result ≡ printable_moment moment }
{
    moment.min(LATEST_MOMENT_MILLIS)
}

/// Returns the civil date that is `days` days after the first of January 1970.
fn add_days_to_epoch(days: u64) -> Date
    requires { days < 2932897 }
    ensures { epoch_day result ≡ pos days }
{
    date(1970, 1, 1).checked_add((days as i64).days()).unwrap()
}

/// Returns the civil date, in UTC, of the timestamp `moment`.
///
/// `moment` is in milliseconds since 1970 in UTC. For a timestamp after the year 9999, the date is
/// the last day of that year.
pub fn civil_date(moment: u64) -> Date
    ensures { IsDateOf moment result }
{
    add_days_to_epoch(printable_moment(moment) / MILLIS_PER_DAY)
}

/// Writes the time of day that is `millis` milliseconds after midnight, in the form `22:13:20.123`.
fn write_time_of_day<W: Write>(millis: u64, out: &mut W) -> Result<(), OutputFault>
    ensures { Emits (W.contents out.old) (W.contents out.new) (is_err result) (time_of_day_bytes
        millis) }
{
    let hours = two_digits(millis / 3_600_000);
    let minutes = two_digits(millis / 60_000 % 60);
    let seconds = two_digits(millis / 1000 % 60);
    let rest = three_digits(millis % 1000);
    emit_all(&[&hours, b":", &minutes, b":", &seconds, b".", &rest], out)
}

/// Writes `date` in the form `2023-11-14`.
fn write_date<W: Write>(date: Date, out: &mut W) -> Result<(), OutputFault>
    ensures { Emits (W.contents out.old) (W.contents out.new) (is_err result) (date_bytes date) }
{
    let year = four_digits(u64::from(date.year().unsigned_abs()));
    let month = two_digits(u64::from(date.month().unsigned_abs()));
    let day = two_digits(u64::from(date.day().unsigned_abs()));
    emit_all(&[&year, b"-", &month, b"-", &day], out)
}

/// Writes the timestamp `moment`, whose date is `date`, in the form `2023-11-14T22:13:20.123Z`.
///
/// `moment` is in milliseconds since 1970 in UTC. For a timestamp after the year 9999, the last
/// timestamp of that year is written.
///
/// # Errors
///
/// - `OutputFault`: a write fails.
pub fn write_moment<W: Write>(date: Date, moment: u64, out: &mut W) -> Result<(), OutputFault>
    ensures { Emits (W.contents out.old) (W.contents out.new) (is_err result)
        (moment_bytes date moment) }
{
    write_date(date, out)?;
    emit(b"T", out)?;
    write_time_of_day(printable_moment(moment) % MILLIS_PER_DAY, out)?;
    emit(b"Z", out)
}
