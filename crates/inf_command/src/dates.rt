ghost use Rattle.std.specs.Prelude.{◌≡◌, ◌<◌, ◌+◌, ◌/◌, ◌%◌};
ghost use Rattle.inf_command.specs.Dates.{serial_of, two_digits};

use jiff::civil::Date;

/// Returns the serial number of a story of this date: the year within its century, the month and the day, each as two ASCII digits.
pub fn serial(date: Date) -> [u8; 6]
    ensures { result ≡ serial_of date }
{
    let year = date.year().rem_euclid(100) as u8;
    let month = date.month() as u8;
    let day = date.day() as u8;
    [
        tens(year),
        ones(year),
        tens(month),
        ones(month),
        tens(day),
        ones(day),
    ]
}

fn tens(number: u8) -> u8
    requires { number < 100 }
    ensures { result ≡ 48 + number / 10 }
{
    b'0' + number / 10
}

fn ones(number: u8) -> u8
    ensures { result ≡ 48 + number % 10 }
{
    b'0' + number % 10
}
