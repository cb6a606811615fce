//! Texts of civil seconds.
ghost use Rattle.std.specs.Prelude.{◌≡◌, ◌+◌, ◌/◌, ◌%◌, ◌<◌, ◌≤◌};
ghost use Rattle.timex_dates.specs.Printed.{bytes_of, printed};
ghost use Rattle.timex_value.specs.Text.{digit_byte};

/// A civil date and time, `YYYY-MM-DDThh:mm:ss`. The year has four digits, or is 10000.
#[derive(Clone, Copy)]
pub struct CivilText {
    /// The text. Where the year has four digits, the first byte is not part of it.
    bytes: [u8; 20],
    /// The year is 10000.
    wide: bool,
}

fn digit(n: u32) -> u8
    requires { n ≤ 9 }
    ensures { result ≡ digit_byte n }
{
    b'0' + n as u8
}

impl CivilText {
    /// The text, in ASCII.
    pub fn as_bytes(&self) -> &[u8]
        ensures { result.now ≡ bytes_of self.now }
    {
        if self.wide {
            &self.bytes
        } else {
            let (_, narrow) = self.bytes.split_at(1);
            narrow
        }
    }

    /// The text of a date and of the time that is this number of seconds into the day.
    pub(crate) fn new(year: u16, month: u8, day: u8, clock: u32) -> CivilText
        requires year { year ≤ 10_000 }
        requires month { month ≤ 99 }
        requires day { day ≤ 99 }
        requires clock { clock < 86_400 }
        ensures { bytes_of result ≡ printed year month day clock }
    {
        let wide = year == 10_000;
        let year = if wide { 0 } else { u32::from(year) };
        let month = u32::from(month);
        let day = u32::from(day);
        let bytes = [
            b'1',
            digit(year / 1000),
            digit(year / 100 % 10),
            digit(year / 10 % 10),
            digit(year % 10),
            b'-',
            digit(month / 10),
            digit(month % 10),
            b'-',
            digit(day / 10),
            digit(day % 10),
            b'T',
            digit(clock / 3600 / 10),
            digit(clock / 3600 % 10),
            b':',
            digit(clock / 60 % 60 / 10),
            digit(clock / 60 % 60 % 10),
            b':',
            digit(clock % 60 / 10),
            digit(clock % 60 % 10),
        ];
        CivilText { bytes, wide }
    }
}
