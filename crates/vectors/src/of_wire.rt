// Messages cut into fields by `wire`, and asked by `messages`: each field's number, kind and value or places, or the refusal with its offset.
use crate::hex::{number, read_bytes};
use foundation::Located;
use messages::repeated::Two;
use std::io;
use wire::{WireError, WireValue};

fn print_value(rt: &impl Print, value: WireValue) -> io::Result<()> {
    match value {
        WireValue::Varint(n) => println!(rt; " varint {n}"),
        WireValue::Fixed { width, number } => {
            let bits = 8 * (width % 16);
            println!(rt; " fixed{bits} {number}")
        }
        WireValue::Body(body) => println!(rt; " body {}..{}", body.start, body.end),
    }
}

// The fields of a message, up to its end or to what refuses it. A loop by hand: `wire::fields_from` gives only fields of numbers that are named.
fn show(rt: &impl Print, s: Located<'_>) -> io::Result<()> {
    println!(rt)?;
    let mut at = 0;
    while at < s.bytes.len() {
        let step = wire::field_at(s, at);
        print!(rt; "  ")?;
        match step {
            Err(error) => return println!(rt; "{error}"),
            Ok(read) => {
                print!(rt; "field {}", read.value.number)?;
                print_value(rt, read.value.value)?;
                at = read.next;
            }
        }
    }
    Ok(())
}

// The numbers of a packed run. One function with `show` would take a trait of what is read, with the law that it goes on: longer than this second loop.
fn show_packed(rt: &impl Print, s: Located<'_>) -> io::Result<()> {
    print!(rt; "\n ")?;
    let mut at = 0;
    while at < s.bytes.len() {
        let step = wire::varint_at(s, at);
        print!(rt; " ")?;
        match step {
            Err(error) => return println!(rt; "{error}"),
            Ok(read) => {
                print!(rt; "{}", read.value)?;
                at = read.next;
            }
        }
    }
    println!(rt)
}

fn print_checked(rt: &impl Print, checked: Result<(), WireError>) -> io::Result<()> {
    match checked {
        Ok(()) => println!(rt; "whole"),
        Err(error) => println!(rt; "{error}"),
    }
}

// A message cut short after each of its bytes.
fn show_cuts(rt: &impl Print, s: &[u8]) -> io::Result<()> {
    println!(rt; ", cut short")?;
    for n in 0..s.len() {
        print!(rt; "  {n} bytes: ")?;
        print_checked(rt, messages::check(Located::whole(&s[..n])))?;
    }
    Ok(())
}

fn show_first(rt: &impl Print, s: &[u8], number: u32) -> io::Result<()> {
    print!(rt; "\n  first")?;
    match messages::find(Located::whole(s), number) {
        Some(value) => print_value(rt, value),
        None => println!(rt; " nothing"),
    }
}

fn print_two(rt: &impl Print, two: Two) -> io::Result<()> {
    match two {
        Two::Neither => println!(rt; "none"),
        Two::One { first } => println!(rt; "one {first}"),
        Two::Both { first, second } => println!(rt; "two {first} {second}"),
    }
}

// The first two of a repeated number, mod 2^32.
fn show_two(rt: &impl Print, s: &[u8], number: u32) -> io::Result<()> {
    print!(rt; "\n  ")?;
    match messages::repeated::first_two(Located::whole(s), number) {
        Ok(two) => print_two(rt, two),
        Err(error) => println!(rt; "{error}"),
    }
}

// What is asked of a message: its fields, its packed numbers, itself cut short, or its first field and first two numbers with a field number. The number is
// that one, or the message's offset.
fn show_asked(rt: &impl Print, kind: &[u8], n: u32, s: &[u8]) -> io::Result<()> {
    let message = Located {
        base: n as usize,
        bytes: s,
    };
    if kind.starts_with(b"packed") {
        return show_packed(rt, message);
    }
    if kind.starts_with(b"cuts") {
        return show_cuts(rt, s);
    }
    if kind.starts_with(b"first") {
        return show_first(rt, s, n);
    }
    if kind.starts_with(b"two") {
        return show_two(rt, s, n);
    }
    show(rt, message)
}

// A line: what is asked, a note, the number, and the message's bytes.
pub(crate) fn show_line(rt: &impl Print, line: &[u8]) -> io::Result<()> {
    let mut parts = line.split(|byte| *byte == b'|');
    let kind = parts.next().unwrap_or(&[]);
    rt.write_all(parts.next().unwrap_or(&[]))?;
    let n = number(parts.next().unwrap_or(&[]));
    let mut area = [0u8; 16];
    let size = read_bytes(parts.next().unwrap_or(&[]), &mut area);
    show_asked(rt, kind, n, &area[..size])
}
