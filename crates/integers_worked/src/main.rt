// Calls each public function of `integers` on worked values, and writes each call with its answer, one a line; but `all_within`, which is
// `within` of each number of a run.
#![tactic(auto)]

use std::io;

fn is_zero(rt: &impl Print, x: i64) -> io::Result<()> {
    println!(rt; "is_zero({x}) = {}", integers::is_zero(x))
}

fn is_negative(rt: &impl Print, x: i64) -> io::Result<()> {
    println!(rt; "is_negative({x}) = {}", integers::is_negative(x))
}

fn magnitude(rt: &impl Print, x: i64) -> io::Result<()> {
    println!(rt; "magnitude({x}) = {}", integers::magnitude(x))
}

fn within(rt: &impl Print, bound: u64, x: i64) -> io::Result<()> {
    println!(rt; "within({bound}, {x}) = {}", integers::within(bound, x))
}

fn divides(rt: &impl Print, d: i64, x: i64) -> io::Result<()> {
    println!(rt; "divides({d}, {x}) = {}", integers::divides(d, x))
}

fn gcd(rt: &impl Print, a: u64, b: u64) -> io::Result<()> {
    println!(rt; "gcd({a}, {b}) = {}", integers::gcd(a, b))
}

fn at(rt: &impl Print, run: &[i64], place: usize) -> io::Result<()> {
    println!(rt; "at({run:?}, {place}) = {}", integers::at(run, place))
}

fn main(rt: HostRuntime) -> io::Result<()> {
    for x in [0, 1, -1, i64::MIN] {
        is_zero(&rt, x)?;
    }
    for x in [0, i64::MAX, -1, i64::MIN] {
        is_negative(&rt, x)?;
    }
    for x in [0, 7, -1, -7, i64::MAX, i64::MIN] {
        magnitude(&rt, x)?;
    }
    for (bound, x) in [
        (1000000, 1000000),
        (1000000, -1000000),
        (1000000, 1000001),
        (1000000, -1000001),
        (0, 0),
        (0, -1),
        (9223372036854775807, i64::MIN),
        (9223372036854775808, i64::MIN),
    ] {
        within(&rt, bound, x)?;
    }
    for (d, x) in [
        (0, 0),
        (0, 5),
        (5, 0),
        (3, -9),
        (-3, 9),
        (-3, 10),
        (9, 3),
        (-1, i64::MIN),
        (i64::MIN, i64::MAX),
    ] {
        divides(&rt, d, x)?;
    }
    for (a, b) in [
        (0, 0),
        (0, 5),
        (5, 0),
        (12, 18),
        (18, 12),
        (7, 21),
        (1000000, 999999),
        // 2^64 - 1 is (2^32 - 1) times (2^32 + 1).
        (18446744073709551615, 4294967295),
        // The two largest Fibonacci numbers of 64 bits, on which Euclid's algorithm takes longest.
        (12200160415121876738, 7540113804746346429),
    ] {
        gcd(&rt, a, b)?;
    }
    for place in [0, 1, 2, usize::MAX] {
        at(&rt, &[5, -6], place)?;
    }
    Ok(())
}
