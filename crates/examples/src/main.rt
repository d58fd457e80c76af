// Runs what the desk program runs over every file that the arguments name, and prints the file's name and what comes of it.
#![tactic(auto)]

ghost use Rattle.std.specs.Prelude.{◌≤◌, length};

use std::env::{Env, FillError};
use std::io::{ErrorKind, Read};
use std::rt::Files;
use std::{fs, str};

// Prints what comes of the whole input.
fn answer(rt: &impl Print, input: &[u8]) {
    let mut out = [0u8; desk_rooms::DESK];
    let n = desk_output::desk_output(input, &mut out);
    let _ = rt.write_all(&out[..n]);
}

// Reads until the space is full or the input ends, and tells how much came. A read that fails ends it.
fn read_full<R: Read>(from: &mut R, space: &mut [u8]) -> usize
    ensures { result ≤ length space.new }
{
    let mut n = 0;
    for _ in 0..u64::MAX {
        if n == space.len() {
            return n;
        }
        match from.read(&mut space[n..]) {
            Ok(0) => return n,
            Ok(k) => n += k,
            Err(error) => {
                if error.kind() != ErrorKind::Interrupted {
                    return n;
                }
            }
        }
    }
    n
}

// A file by its name. One that can't be opened is told on standard error.
fn file(rt: &(impl Files + Print + Eprint), path: &str) {
    let mut opened = match fs::open(rt, path) {
        Ok(opened) => opened,
        Err(error) => {
            let _ = eprintln!(rt; "{path}: {error}");
            return;
        }
    };
    let mut input = [0u8; limits::DESK_BYTES + 1];
    let n = read_full(&mut opened, &mut input);
    let _ = rt.println(path);
    answer(rt, &input[..n]);
}

// The file that argument i names, and whether there is such an argument. A name that is no text, or too long for a path, is told on standard error.
fn named(rt: &(impl Env + Files + Print + Eprint), i: usize) -> bool {
    let mut path = [0u8; 4096];
    let length = match rt.arg(i, &mut path) {
        Ok(length) => length,
        Err(FillError::NotPresent) => return false,
        Err(FillError::TooLong) => 0,
    };
    match str::from_utf8(&path[..length]) {
        Ok(text) => file(rt, text),
        Err(_) => {
            let _ = rt.eprintln("a name that is no text");
        }
    }
    true
}

fn main(rt: HostRuntime) {
    for i in 1..usize::MAX {
        if !named(&rt, i) {
            return;
        }
    }
}
