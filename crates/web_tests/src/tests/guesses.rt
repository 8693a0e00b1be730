//! Addresses that guess keys, and how long they wait.
use super::expect_eq;
use std::net::{IpAddr, Ipv4Addr, Ipv6Addr};
use std::process::Abort;
use std::test::Fail;
use std::time::{Duration, Instant};
use web_loop::Offenders;

/// An address of the club's network.
fn device(number: u8) -> IpAddr {
    IpAddr::from(Ipv4Addr::new(192, 168, 4, number))
}

/// So many milliseconds later.
fn after(rt: &impl Abort, begun: Instant, millis: u64) -> Instant {
    let time = begun.checked_add(Duration::from_millis(millis));
    time.expect(rt, "a time")
}

/// Offenders with these wrong keys of one device, each a request: how many it had, and when, in milliseconds.
fn guessed(rt: &impl Abort, begun: Instant, requests: &[(u64, u64)]) -> Offenders {
    let mut offenders = Offenders::new(begun);
    for (wrong, at) in requests {
        offenders.note(device(7), *wrong, after(rt, begun, *at));
    }
    offenders
}

/// The requests of a device, and until when it then waits, in milliseconds; 0 is an address that does not wait.
type Waits = (&'static [(u64, u64)], u64);

static WAITS: [Waits; 9] = [
    (&[(9, 0)], 0),
    (&[(5, 0), (5, 100)], 5_100),
    (&[(9, 0), (1, 59_999)], 60_999),
    (&[(9, 0), (1, 60_000)], 0),
    (&[(10, 0), (0, 20_000)], 21_000),
    (&[(10, 0), (7, 20_000)], 27_000),
    (&[(10, 0), (60, 20_000)], 80_000),
    (&[(10, 0), (8_000, 20_000)], 80_000),
    (&[(10, 0), (0, 60_000)], 0),
];

/// Fails where the device of a row waits or not at another time than it should, or another device waits.
fn expect_waits(rt: &impl Abort, begun: Instant, row: &Waits) {
    let (requests, until) = *row;
    let offenders = guessed(rt, begun, requests);
    let now = match requests.last() {
        Some((_, at)) => *at,
        None => 0,
    };
    expect_wait(rt, &offenders, after(rt, begun, now), until > 0, row);
    let last = until.saturating_sub(1).max(now);
    expect_wait(rt, &offenders, after(rt, begun, last), until > 0, row);
    let end = after(rt, begun, until.max(now));
    expect_wait(rt, &offenders, end, false, row);
}

/// Fails where the device waits then and should not, or the other way round, or another device waits.
fn expect_wait(rt: &impl Abort, offenders: &Offenders, time: Instant, due: bool, row: &Waits) {
    expect_eq(rt, offenders.waits(device(7), time), due, row);
    expect_eq(rt, offenders.waits(device(8), time), false, row);
}

// The tenth within a minute slows, each key of a request counts, and a minute after the first of ten it is over. A slowed
// address waits a second for each wrong key of its last request, at least one and at most 60.
#[test]
fn the_tenth_wrong_key_within_a_minute_slows(rt: HostRuntime) -> Result<(), Fail> {
    let begun = Instant::now(&rt)?;
    for row in WAITS.as_slice() {
        expect_waits(&rt, begun, row);
    }
    Ok(())
}

static REMEMBERED: [u8; 4] = [1, 2, 127, 128];

// An IPv4 address in the form of IPv6 is the same address, and of 129 the one heard the longest ago is forgotten.
#[test]
fn addresses_are_told_apart(rt: HostRuntime) -> Result<(), Fail> {
    let begun = Instant::now(&rt)?;
    let then = after(&rt, begun, 1);
    let mut offenders = Offenders::new(begun);
    for number in 0..=128 {
        offenders.note(device(number), 10, begun);
    }
    expect_eq(&rt, offenders.waits(device(0), then), false, "forgotten");
    for number in &REMEMBERED {
        expect_eq(&rt, offenders.waits(device(*number), then), true, number);
    }
    let mapped = IpAddr::from(Ipv6Addr::new(0, 0, 0, 0, 0, 0xffff, 0xc0a8, 0x0401));
    expect_eq(&rt, offenders.waits(mapped, then), true, "mapped");
    Ok(())
}
