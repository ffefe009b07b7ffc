// What is asked of shape, remainder and table.
use shape::field::{Account, System};
use shape::stored::Identifier;
use std::io;
use table::Kind;

// A number above this one takes no digit more.
const NUMBER_MOST: u64 = 100_000_000_000_000_000;

// The number that digits write, for numbers that stay below the width. Reading ends at a byte below the digits: `number` of drill goes on after
// it, and stops at the highest number, so that one function would print otherwise.
pub fn number(s: &[u8]) -> u64 {
    let mut n: u64 = 0;
    for digit in s {
        if (*digit < b'0') | (NUMBER_MOST < n) {
            return n;
        }
        n = n * 10 + (*digit - b'0') as u64;
    }
    n
}

pub fn put_number(rt: &impl Print, n: u64) -> io::Result<()> {
    print!(rt; " {n}")
}

pub fn put_value(rt: &impl Print, v: Option<u64>) -> io::Result<()> {
    match v {
        Some(n) => put_number(rt, n),
        None => print!(rt; " none"),
    }
}

pub fn put_test(rt: &impl Print, holds: bool) -> io::Result<()> {
    print!(rt; "{}", if holds { " yes" } else { " no" })
}

// An IBAN's remainder, and whether it is one.
pub fn iban(rt: &impl Print, text: &[u8]) -> io::Result<()> {
    put_value(rt, remainder::remainder(text))?;
    put_test(rt, shape::field::is_iban(text))
}

// Whether a number is a date, and the day before it.
pub fn date(rt: &impl Print, text: &[u8]) -> io::Result<()> {
    let n = number(text);
    put_test(rt, shape::date::is_date(n))?;
    put_value(rt, shape::date::day_before(n))
}

pub fn put_account(rt: &impl Print, account: Account) -> io::Result<()> {
    put_number(rt, account.digit)?;
    put_number(rt, account.code)?;
    put_number(rt, account.currency)
}

pub fn put_system(rt: &impl Print, system: System) -> io::Result<()> {
    match system {
        System::Sep => print!(rt; " SEP"),
        System::Asp => print!(rt; " ASP"),
        System::Neither => print!(rt; " neither"),
    }
}

pub fn uetr(rt: &impl Print, text: &[u8]) -> io::Result<()> {
    put_test(rt, shape::stored::is_uetr(text))?;
    put_uetr(rt, shape::stored::uetr_of(text))
}

// The two numbers that a UETR is stored as. All 16 hexadecimal digits of each are shown.
pub fn put_uetr(rt: &impl Print, u: shape::stored::Uetr) -> io::Result<()> {
    print!(rt; " {:016x} {:016x}", u.high, u.low)
}

// The five numbers that an identifier is stored as. Each holds seven bytes, so 14 hexadecimal digits are shown.
pub fn put_stored(rt: &impl Print, i: Identifier) -> io::Result<()> {
    print!(rt; " {:014x} {:014x} {:014x}", i.first, i.second, i.third)?;
    print!(rt; " {:014x} {:014x}", i.fourth, i.fifth)
}

// Both codes of a check.
pub fn codes(rt: &impl Print, text: &[u8]) -> io::Result<()> {
    let n = number(text);
    print!(rt; " ")?;
    rt.write_all(&table::sep_code(n))?;
    print!(rt; " ")?;
    rt.write_all(&table::iso_code(Kind::Pacs008, n))
}

// The order of the kind of that name, or nothing where there is none.
pub fn order_named(rt: &impl Print, name: &[u8]) -> io::Result<()> {
    match name {
        b"pacs.008" => order(rt, Kind::Pacs008),
        b"camt.050" => order(rt, Kind::Camt050),
        b"pacs.028" => order(rt, Kind::Pacs028),
        b"pacs.002" => order(rt, Kind::Pacs002),
        _ => Ok(()),
    }
}

fn order(rt: &impl Print, kind: Kind) -> io::Result<()> {
    for number in table::order_of(kind) {
        put_number(rt, *number)?;
    }
    Ok(())
}
