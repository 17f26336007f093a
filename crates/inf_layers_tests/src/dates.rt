use crate::expecting::expect;
use inf_command::dates::serial;
use jiff::civil::Date;
use std::test::Fail;

#[test]
fn a_date_is_six_digits(rt: HostRuntime) -> Result<(), Fail> {
    let cases = [
        (2026i16, 3i8, 7i8, b"260307"),
        (2000, 12, 31, b"001231"),
        (-1, 10, 1, b"991001"),
        (-9999, 1, 1, b"010101"),
    ];
    for (year, month, day, digits) in cases {
        let date = Date::new(year, month, day)?;
        expect(&rt, &year, &serial(date), digits);
    }
    Ok(())
}
