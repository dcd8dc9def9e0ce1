use crate::tests::types::stays;
use crate::tests::{holds, same};
use der_elem::{DerOrd, Duplicate, FixedTag, FromDer, ValueOrd};
use der_opaque::{Any, AnyRef};
use der_time::laws::{chronological, days_since_1970, equal_times, utc_chronological};
use der_time::{DateTime, GeneralizedTime, UtcTime, const_contains_u8};
use der_tlv::{Error, ErrorKind, Tag};
use std::cmp::Ordering;
use std::str::FromStr;
use std::test::Fail;
use std::time::Duration;

/// The encoding of 1991-05-06T23:45:40Z as a GeneralizedTime.
const GENERALIZED: &[u8; 17] = b"\x18\x0f19910506234540Z";

/// The encoding of 1991-05-06T23:45:40Z as a UTCTime.
const UTC: &[u8; 15] = b"\x17\x0d910506234540Z";

/// The seconds of the last time.
const LAST: u64 = 253_402_300_799;

/// Returns the number of the error with which these fields are refused, or 0.
fn refused_as_new(year: u16, date: (u8, u8), clock: (u8, u8, u8)) -> u8 {
    match DateTime::new(year, date.0, date.1, clock.0, clock.1, clock.2) {
        Ok(_) => 0,
        Err(e) => e.kind.number(),
    }
}

/// Returns the number of the error with which a text is refused, or 0.
fn refused_as_text(text: &str) -> u8 {
    match DateTime::from_str(text) {
        Ok(_) => 0,
        Err(e) => e.kind.number(),
    }
}

/// Returns the order that a comparison returns, if it returns one.
fn order_of(answer: Result<Ordering, Error>) -> Option<Ordering> {
    match answer {
        Ok(order) => Some(order),
        Err(_) => None,
    }
}

/// Returns the seconds of a text, or 0.
fn seconds_of_text(text: &str) -> u64 {
    match DateTime::from_str(text) {
        Ok(time) => time.unix_duration().as_secs(),
        Err(_) => 0,
    }
}

#[test]
fn encodings_stay(rt: HostRuntime) {
    let alloc = rt.alloc();
    holds(&rt, stays::<GeneralizedTime>(alloc, GENERALIZED));
    holds(&rt, stays::<DateTime>(alloc, GENERALIZED));
    holds(&rt, stays::<UtcTime>(alloc, UTC));
}

#[test]
fn fields_are_a_time_or_none(rt: HostRuntime) {
    let taken: [(u16, (u8, u8), (u8, u8, u8)); 8] = [
        (1970, (1, 26), (0, 0, 0)),
        (2039, (2, 27), (0, 0, 0)),
        (2055, (12, 31), (0, 0, 0)),
        (2055, (12, 31), (23, 0, 0)),
        (2055, (12, 31), (0, 59, 0)),
        (2055, (12, 31), (0, 0, 59)),
        (2000, (2, 29), (0, 0, 0)),
        (2024, (2, 29), (0, 0, 0)),
    ];
    for row in &taken {
        same(&rt, refused_as_new(row.0, row.1, row.2), 0);
    }
    let refused: [(u16, (u8, u8), (u8, u8, u8)); 18] = [
        (2, (3, 25), (0, 0, 0)),
        (1969, (1, 26), (0, 0, 0)),
        (1968, (1, 26), (0, 0, 0)),
        (1600, (1, 26), (0, 0, 0)),
        (2039, (2, 27), (255, 0, 0)),
        (2039, (2, 27), (0, 255, 0)),
        (2039, (2, 27), (0, 0, 255)),
        (2055, (12, 31), (24, 0, 0)),
        (2055, (12, 31), (0, 60, 0)),
        (2055, (12, 31), (0, 0, 60)),
        (10000, (1, 1), (0, 0, 0)),
        (2001, (0, 1), (0, 0, 0)),
        (2001, (13, 1), (0, 0, 0)),
        (2001, (1, 0), (0, 0, 0)),
        (2001, (4, 31), (0, 0, 0)),
        (2001, (2, 29), (0, 0, 0)),
        (2023, (2, 29), (0, 0, 0)),
        (2100, (2, 29), (0, 0, 0)),
    ];
    for row in &refused {
        same(&rt, refused_as_new(row.0, row.1, row.2), 14);
    }
}

#[test]
fn a_time_shows_its_fields(rt: HostRuntime) {
    let Ok(time) = DateTime::new(2001, 1, 2, 12, 13, 14) else {
        panic!(rt; "refused")
    };
    same(&rt, time.year(), 2001);
    same(&rt, time.month(), 1);
    same(&rt, time.day(), 2);
    same(&rt, time.hour(), 12);
    same(&rt, time.minutes(), 13);
    same(&rt, time.seconds(), 14);
    let last = DateTime::INFINITY;
    same(&rt, last.year(), 9999);
    same(&rt, last.unix_duration().as_secs(), LAST);
    holds(&rt, chronological(&time, &last) == Ordering::Less);
    holds(&rt, time < last);
    holds(&rt, !equal_times(&time, &last));
    same(&rt, days_since_1970(&last), 2_932_896);
}

#[test]
fn texts_are_times(rt: HostRuntime) -> Result<(), Fail> {
    let alloc = rt.alloc();
    let Ok(time) = DateTime::from_str("2001-01-02T12:13:14Z") else {
        panic!(rt; "refused")
    };
    let Ok(of_fields) = DateTime::new(2001, 1, 2, 12, 13, 14) else {
        panic!(rt; "refused")
    };
    holds(&rt, time == of_fields);
    let text = format!(in alloc; "{time}")?;
    same(&rt, text.as_str(), "2001-01-02T12:13:14Z");
    let last = format!(in alloc; "{}", DateTime::INFINITY)?;
    same(&rt, last.as_str(), "9999-12-31T23:59:59Z");
    let refused = [
        "",
        "2001-01-02",
        "2001-01-02t12:13:14Z",
        "2001-01-02T12:13:14z",
        "2001-01-02 12:13:14Z",
        "2001-01-02T12:13:14",
        "2001-01-02T12:13:14.0Z",
        "2001-01-02T12:13:14+00:00",
        "2001-1-02T12:13:14Z",
        "2001/01/02T12:13:14Z",
        "2001-02-29T12:13:14Z",
        "2001-01-02T24:00:00Z",
        "1969-12-31T23:59:59Z",
        "12001-01-02T12:13:14Z",
        " 2001-01-02T12:13:14Z",
        "2001-01-02T12:13:14Z ",
    ];
    for text in &refused {
        same(&rt, refused_as_text(*text), 14);
    }
    Ok(())
}

#[test]
fn seconds_are_those_of_the_calendar(rt: HostRuntime) -> Result<(), Fail> {
    let alloc = rt.alloc();
    let known = [
        ("1970-01-01T00:00:01Z", 1),
        ("1991-05-06T23:45:40Z", 673_573_540),
        ("2000-02-29T00:00:00Z", 951_782_400),
        ("2000-03-01T00:00:00Z", 951_868_800),
        ("2001-09-09T01:46:40Z", 1_000_000_000),
        ("2009-02-13T23:31:30Z", 1_234_567_890),
        ("2049-12-31T23:59:59Z", 2_524_607_999),
        ("2050-01-01T00:00:00Z", 2_524_608_000),
        ("2100-03-01T00:00:00Z", 4_107_542_400),
        ("9999-12-31T23:59:59Z", LAST),
    ];
    for row in &known {
        same(&rt, seconds_of_text(row.0), row.1);
        let Ok(time) = DateTime::from_unix_duration(Duration::from_secs(row.1)) else {
            panic!(rt; "refused")
        };
        let text = format!(in alloc; "{time}")?;
        same(&rt, text.as_str(), row.0);
    }
    Ok(())
}

#[test]
fn the_second_after_the_last_is_refused(rt: HostRuntime) {
    match GeneralizedTime::from_unix_duration(Duration::from_secs(LAST + 1)) {
        Ok(_) => panic!(rt; "taken"),
        Err(e) => same(&rt, e.kind.number(), 13),
    }
}

#[test]
fn durations_have_a_last_second(rt: HostRuntime) {
    let Ok(last) = DateTime::from_unix_duration(Duration::from_secs(LAST)) else {
        panic!(rt; "refused")
    };
    holds(&rt, last == DateTime::INFINITY);
    let Ok(first) = DateTime::from_unix_duration(Duration::from_nanos(999_999_999)) else {
        panic!(rt; "refused")
    };
    same(&rt, first.unix_duration().as_secs(), 0);
    let beyond = Duration::new(LAST, 1);
    match DateTime::from_unix_duration(beyond) {
        Ok(_) => panic!(rt; "taken"),
        Err(e) => same(&rt, e.kind.number(), 14),
    }
    match GeneralizedTime::from_unix_duration(beyond) {
        Ok(_) => panic!(rt; "taken"),
        Err(e) => same(&rt, e.kind.number(), 13),
    }
    match UtcTime::from_unix_duration(beyond) {
        Ok(_) => panic!(rt; "taken"),
        Err(e) => same(&rt, e.kind.number(), 14),
    }
    match UtcTime::from_unix_duration(Duration::from_secs(2_524_608_000)) {
        Ok(_) => panic!(rt; "taken"),
        Err(e) => same(&rt, e.kind.number(), 13),
    }
    let Ok(utc) = UtcTime::from_unix_duration(Duration::new(2_524_607_999, 999_999_999)) else {
        panic!(rt; "refused")
    };
    same(&rt, utc.to_unix_duration().as_secs(), 2_524_607_999);
    same(&rt, utc.to_date_time().year(), UtcTime::MAX_YEAR);
    let Ok(generalized) = GeneralizedTime::from_unix_duration(Duration::from_secs(LAST)) else {
        panic!(rt; "refused")
    };
    same(&rt, generalized.to_unix_duration().as_secs(), LAST);
}

#[test]
fn utc_times_have_two_orders(rt: HostRuntime) -> Result<(), Fail> {
    let alloc = rt.alloc();
    let Ok(later) = UtcTime::from_der(alloc, b"\x17\x0d000101000000Z") else {
        panic!(rt; "refused")
    };
    let Ok(earlier) = UtcTime::from_der(alloc, b"\x17\x0d991231235959Z") else {
        panic!(rt; "refused")
    };
    same(&rt, later.to_date_time().year(), 2000);
    same(&rt, earlier.to_date_time().year(), 1999);
    holds(
        &rt,
        order_of(later.value_cmp(&earlier)) == Some(Ordering::Less),
    );
    holds(
        &rt,
        order_of(later.der_cmp(&earlier)) == Some(Ordering::Less),
    );
    holds(&rt, later.cmp(&earlier) == Ordering::Greater);
    holds(
        &rt,
        utc_chronological(&later, &earlier) == Ordering::Greater,
    );
    holds(
        &rt,
        order_of(later.value_cmp(&later)) == Some(Ordering::Equal),
    );
    holds(&rt, later != earlier);
    Ok(())
}

#[test]
fn generalized_times_have_one_order(rt: HostRuntime) -> Result<(), Fail> {
    let alloc = rt.alloc();
    let Ok(one) = GeneralizedTime::from_der(alloc, GENERALIZED) else {
        panic!(rt; "refused")
    };
    let last = GeneralizedTime::from_date_time(DateTime::INFINITY);
    holds(&rt, order_of(one.value_cmp(&last)) == Some(Ordering::Less));
    holds(&rt, order_of(last.der_cmp(&one)) == Some(Ordering::Greater));
    holds(&rt, one.cmp(&last) == Ordering::Less);
    holds(
        &rt,
        order_of(one.date_time.value_cmp(&last.date_time)) == Some(Ordering::Less),
    );
    holds(&rt, one == one);
    holds(&rt, one != last);
    Ok(())
}

#[test]
fn times_convert(rt: HostRuntime) -> Result<(), Fail> {
    let Ok(time) = DateTime::new(1991, 5, 6, 23, 45, 40) else {
        panic!(rt; "refused")
    };
    let generalized = GeneralizedTime::from(time);
    holds(&rt, generalized == GeneralizedTime::from(&time));
    holds(&rt, generalized == GeneralizedTime::from(&generalized));
    holds(&rt, generalized.to_date_time() == time);
    holds(&rt, DateTime::from(generalized) == time);
    holds(&rt, DateTime::from(&generalized) == time);
    let Ok(utc) = UtcTime::try_from(time) else {
        panic!(rt; "refused")
    };
    let Ok(borrowed) = UtcTime::try_from(&time) else {
        panic!(rt; "refused")
    };
    holds(&rt, utc == borrowed);
    holds(&rt, utc == UtcTime::from(&utc));
    holds(&rt, utc.to_date_time() == time);
    holds(&rt, DateTime::from(utc) == time);
    holds(&rt, DateTime::from(&utc) == time);
    match UtcTime::from_date_time(DateTime::INFINITY) {
        Ok(_) => panic!(rt; "taken"),
        Err(e) => same(&rt, e.kind.number(), 13),
    }
    let Ok(copy) = utc.duplicate() else {
        panic!(rt; "refused")
    };
    holds(&rt, copy == utc);
    same(&rt, UtcTime::LENGTH, 13);
    Ok(())
}

#[test]
fn carried_octets_are_times(rt: HostRuntime) -> Result<(), Fail> {
    let alloc = rt.alloc();
    let Ok(any) = AnyRef::new(Tag::UtcTime, b"910506234540Z") else {
        panic!(rt; "refused")
    };
    let Ok(utc) = UtcTime::try_from(any) else {
        panic!(rt; "refused")
    };
    same(&rt, utc.to_unix_duration().as_secs(), 673_573_540);
    match GeneralizedTime::try_from(any) {
        Ok(_) => panic!(rt; "taken"),
        Err(e) => holds(
            &rt,
            e.kind
                == ErrorKind::TagUnexpected {
                    expected: None,
                    actual: Tag::UtcTime,
                },
        ),
    }
    let Ok(owned) = Any::from_der(alloc, GENERALIZED) else {
        panic!(rt; "refused")
    };
    let Ok(generalized) = GeneralizedTime::try_from(&owned) else {
        panic!(rt; "refused")
    };
    holds(&rt, generalized.to_date_time() == utc.to_date_time());
    match UtcTime::try_from(&owned) {
        Ok(_) => panic!(rt; "taken"),
        Err(e) => holds(
            &rt,
            e.kind
                == ErrorKind::TagUnexpected {
                    expected: None,
                    actual: Tag::GeneralizedTime,
                },
        ),
    }
    let Ok(decoded) = any.decode_as::<UtcTime>(alloc) else {
        panic!(rt; "refused")
    };
    holds(&rt, decoded == utc);
    Ok(())
}

#[test]
fn tags_are_universal(rt: HostRuntime) {
    holds(&rt, <UtcTime as FixedTag>::TAG == Tag::UtcTime);
    holds(
        &rt,
        <GeneralizedTime as FixedTag>::TAG == Tag::GeneralizedTime,
    );
    holds(&rt, <DateTime as FixedTag>::TAG == Tag::GeneralizedTime);
}

#[test]
fn ranges_hold_their_ends(rt: HostRuntime) {
    holds(&rt, const_contains_u8(1..=12, 1));
    holds(&rt, const_contains_u8(1..=12, 12));
    holds(&rt, !const_contains_u8(1..=12, 0));
    holds(&rt, !const_contains_u8(1..=12, 13));
    holds(&rt, const_contains_u8(7..=7, 7));
    holds(&rt, !const_contains_u8(8..=7, 7));
}
