// Times, dates, numbers, moments and degrees as text.

use field_text::{
    BadCoordinate, BadDate, BadMoment, BadNumber, BadTime, read_count, read_date, read_degree,
    read_moment, read_time, write_date, write_moment, write_number,
};
use flex_model::Text;
use std::test::Fail;

#[test]
fn times_have_hours_minutes_and_seconds(rt: HostRuntime) {
    for (text, seconds) in [("24:00:00", 86_400), ("167:59:59", 604_799)] {
        assert_eq!(rt; read_time(text), Ok(seconds));
    }
    for text in ["168:00:00", "7:5:00", "07:00:60", " 7:00:00", "07:00", ""] {
        assert_eq!(rt; read_time(text), Err(BadTime));
    }
}

#[test]
fn dates_are_days_of_the_calendar(rt: HostRuntime) {
    for (text, day) in [
        ("20240229", 19_782),
        ("00010101", -719_162),
        ("99991231", 2_932_896),
    ] {
        assert_eq!(rt; read_date(text), Ok(day));
    }
    for text in ["20250229", "00000101", "2025604", " 20250604"] {
        assert_eq!(rt; read_date(text), Err(BadDate));
    }
}

#[test]
fn counts_have_up_to_twenty_digits(rt: HostRuntime) {
    let most = u64::MAX;
    for (text, number) in [("00000000000000000007", 7), ("18446744073709551615", most)] {
        assert_eq!(rt; read_count(text, most), Ok(number));
    }
    for text in ["18446744073709551616", "000000000000000000007", "+7", ""] {
        assert_eq!(rt; read_count(text, most), Err(BadNumber));
    }
    assert_eq!(rt; read_count("86401", 86_400), Err(BadNumber));
}

#[test]
fn moments_are_of_the_years_from_1980_to_2209(rt: HostRuntime) {
    for (text, moment) in [
        ("1980-01-01T00:00:00Z", 315_532_800),
        ("2025-06-04T07:30:00Z", 1_749_022_200),
        ("2209-12-31T23:59:59Z", 7_573_651_199),
    ] {
        assert_eq!(rt; read_moment(text), Ok(moment));
    }
    for text in [
        "1979-12-31T23:59:59Z",
        "2210-01-01T00:00:00Z",
        "2025-02-29T00:00:00Z",
        "2025-06-04T24:00:00Z",
        "2025-06-04 07:30:00Z",
    ] {
        assert_eq!(rt; read_moment(text), Err(BadMoment));
    }
}

#[test]
fn degrees_are_cut_towards_zero(rt: HostRuntime) {
    let greatest = 180_000_000_000_000_000;
    for (text, degree) in [
        ("5.12345678901234567", 5_123_456_789_012_345),
        ("5e-1", 500_000_000_000_000),
        ("-180", -180_000_000_000_000_000),
        ("180.0000000000000009", 180_000_000_000_000_000),
        ("-0.0000000000000009", 0),
        (
            "+00000000000000000000000000000000000000000000000000000001.5E0002",
            150_000_000_000_000_000,
        ),
        ("0e9999", 0),
        ("9e-9999", 0),
    ] {
        assert_eq!(rt; read_degree(text, greatest), Ok(degree));
    }
    for text in [
        "180.000000000000001",
        "5.1.2",
        "1e99",
        "9e9999",
        ".",
        "5e00001",
        "+000000000000000000000000000000000000000000000000000000001.5E0002",
    ] {
        assert_eq!(rt; read_degree(text, greatest), Err(BadCoordinate));
    }
}

#[test]
fn numbers_dates_and_moments_are_printed(rt: HostRuntime) -> Result<(), Fail> {
    let mut text = Text::new(rt.alloc());
    write_number(u64::MAX, &mut text)?;
    text.append(" ")?;
    write_number(0, &mut text)?;
    text.append(" ")?;
    write_date(20_243, &mut text)?;
    text.append(" ")?;
    write_date(-719_162, &mut text)?;
    text.append(" ")?;
    write_moment(1_749_022_200, &mut text)?;
    assert_eq!(rt;
        text.as_str(),
        "18446744073709551615 0 20250604 00010101 2025-06-04T07:30:00Z"
    );
    Ok(())
}
