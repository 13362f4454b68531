//! A moment as the texts of a mailbox show it: the form of ctime, and that of a header's date.
ghost use Rattle.std.specs.Prelude.{◌≡◌, ◌≤◌, ◌<◌, ◌++◌, length, take, drop, codes};
ghost use Rattle.mail_world.specs.Stamps as texts;
ghost use Rattle.mail_writing.specs.Calendar.{civil_at};

use crate::writing::put;
use jiff::Timestamp;
use jiff::tz::Offset;
use std::marker::Model;

/// A second from 1970 on, on the calendar and the clock of UTC.
#[derive(Clone, Copy)]
pub struct Stamp {
    year: u16,
    month: u8,
    day: u8,
    hour: u8,
    minute: u8,
    second: u8,
    // from 0 for Monday
    weekday: u8,
}

impl Model for Stamp {
    ghost Value = { texts.Civil };

    ghost view = { λ s. record {
      year = s.year;
      month = s.month;
      day = s.day;
      hour = s.hour;
      minute = s.minute;
      second = s.second;
      weekday = s.weekday;
    } };

    ghost inverse = { λ c. record {
      year = c.year;
      month = c.month;
      day = c.day;
      hour = c.hour;
      minute = c.minute;
      second = c.second;
      weekday = c.weekday;
    } };

    ghost invariant = { λ s. (s.year < 10_000)
        × ((1 ≤ s.month) × (s.month ≤ 12))
        × ((1 ≤ s.day) × (s.day ≤ 31))
        × (s.hour < 24) × (s.minute < 60) × (s.second < 60) × (s.weekday < 7) };
}

impl Stamp {
    /// The moment that many seconds after the start of 1970, which has no leap seconds.
    pub fn of_unix(seconds: u32) -> Stamp
        ensures { result ≡ civil_at seconds }
    {
        let instant = Timestamp::constant(seconds as i64, 0);
        let moment = Offset::UTC.to_datetime(instant).to_plain();
        Stamp {
            year: moment.date.year as u16,
            month: moment.date.month,
            day: moment.date.day,
            hour: moment.time.hour,
            minute: moment.time.minute,
            second: moment.time.second,
            weekday: moment.date.weekday().index(),
        }
    }
}

fn weekday_name(weekday: u8) -> [u8; 3]
    requires { weekday < 7 }
    ensures { result ≡ texts.weekday_name weekday }
{
    match weekday {
        0 => *b"Mon",
        1 => *b"Tue",
        2 => *b"Wed",
        3 => *b"Thu",
        4 => *b"Fri",
        5 => *b"Sat",
        _ => *b"Sun",
    }
}

// Months count from 1.
fn month_name(month: u8) -> [u8; 3]
    requires low { 1 ≤ month }
    requires high { month ≤ 12 }
    ensures { result ≡ texts.month_name month }
{
    match month {
        1 => *b"Jan",
        2 => *b"Feb",
        3 => *b"Mar",
        4 => *b"Apr",
        5 => *b"May",
        6 => *b"Jun",
        7 => *b"Jul",
        8 => *b"Aug",
        9 => *b"Sep",
        10 => *b"Oct",
        11 => *b"Nov",
        _ => *b"Dec",
    }
}

fn two_digits(number: u8) -> [u8; 2]
    requires { number < 100 }
    ensures { result ≡ texts.two_digits number }
{
    [b'0' + number / 10, b'0' + number % 10]
}

fn four_digits(number: u16) -> [u8; 4]
    requires { number < 10_000 }
    ensures { result ≡ texts.four_digits number }
{
    let [thousands, hundreds] = two_digits((number / 100) as u8);
    let [tens, ones] = two_digits((number % 100) as u8);
    [thousands, hundreds, tens, ones]
}

// The day of a month in two places, the first a space below 10
fn day_in_two(day: u8) -> [u8; 2]
    requires { day < 100 }
    ensures { result ≡ texts.day_in_two day }
{
    let [tens, ones] = two_digits(day);
    if day < 10 { [b' ', ones] } else { [tens, ones] }
}

// `hh:mm:ss`
fn time_of_day(stamp: &Stamp) -> [u8; 8]
    ensures { result ≡ texts.time_of_day stamp.now }
{
    let [h0, h1] = two_digits(stamp.hour);
    let [m0, m1] = two_digits(stamp.minute);
    let [s0, s1] = two_digits(stamp.second);
    [h0, h1, b':', m0, m1, b':', s0, s1]
}

/// `Tue Feb 29 00:00:00 2000`, as ctime writes it, with a space before a day below 10 (RFC 4155,
/// Appendix A).
pub fn stamp_ctime(stamp: &Stamp) -> [u8; 24]
    ensures { result ≡ texts.ctime stamp.now }
{
    let [w0, w1, w2] = weekday_name(stamp.weekday);
    let [m0, m1, m2] = month_name(stamp.month);
    let [d0, d1] = day_in_two(stamp.day);
    let [t0, t1, t2, t3, t4, t5, t6, t7] = time_of_day(stamp);
    let [y0, y1, y2, y3] = four_digits(stamp.year);
    [
        w0, w1, w2, b' ', m0, m1, m2, b' ', d0, d1, b' ', t0, t1, t2, t3, t4, t5, t6, t7, b' ', y0,
        y1, y2, y3,
    ]
}

// ` Feb 2000 00:00:00 +0000`, what follows the day of the month
fn rest_of_date(stamp: &Stamp) -> [u8; 24]
    ensures { result ≡ codes " " ++ texts.month_name stamp.now.month ++ codes " "
        ++ texts.four_digits stamp.now.year ++ codes " " ++ texts.time_of_day stamp.now
        ++ codes " +0000" }
{
    let [m0, m1, m2] = month_name(stamp.month);
    let [y0, y1, y2, y3] = four_digits(stamp.year);
    let [t0, t1, t2, t3, t4, t5, t6, t7] = time_of_day(stamp);
    [
        b' ', m0, m1, m2, b' ', y0, y1, y2, y3, b' ', t0, t1, t2, t3, t4, t5, t6, t7, b' ', b'+',
        b'0', b'0', b'0', b'0',
    ]
}

/// `Tue, 29 Feb 2000 00:00:00 +0000`, the date of a header, with one digit for a day below 10
/// (RFC 5322, 3.3). It has 30 or 31 bytes, and the result says how many.
pub fn stamp_5322(stamp: &Stamp, out: &mut [u8]) -> usize
    requires { 31 ≤ length out.old }
    ensures text { take result out.new ≡ texts.date_time stamp.now }
    ensures rest { drop result out.new ≡ drop result out.old }
    ensures size { result ≤ 31 }
{
    let [w0, w1, w2] = weekday_name(stamp.weekday);
    let [tens, ones] = two_digits(stamp.day);
    let end = if stamp.day < 10 {
        put(out, 0, &[w0, w1, w2, b',', b' ', ones])
    } else {
        put(out, 0, &[w0, w1, w2, b',', b' ', tens, ones])
    };
    put(out, end, &rest_of_date(stamp))
}
