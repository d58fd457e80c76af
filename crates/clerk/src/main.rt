// The clerk's program: its first word names a request. It reads its papers from standard input, as the desk program does, or a sheet alone, and prints what the
// request tells.
#![tactic(auto)]

ghost use Rattle.std.specs.Prelude.{◌≤◌, length};

use std::env::Env as _;
use std::io::{ErrorKind, Read};

// Prints why each status changed, or did not. A closed output does no harm.
fn tell_why(rt: &impl Print, input: &[u8]) {
    let mut out = [0u8; desk_rooms::WHY];
    let n = clerk_why::why_output(input, &mut out);
    let _ = rt.write_all(&out[..n]);
}

// Prints the next card.
fn tell_card(rt: &impl Print, input: &[u8]) {
    let mut out = [0u8; desk_rooms::CARD];
    let n = clerk_card::card_output(input, &mut out);
    let _ = rt.write_all(&out[..n]);
}

// Prints what may still come, in names, by way of this space.
fn tell_names(rt: &impl Print, input: &[u8], out: &mut [u8; desk_rooms::NAMED]) {
    let n = clerk_outlook::outlook_output(input, out);
    let all = &out[..];
    let _ = rt.write_all(&all[..n]);
}

// The same. The large array stands here, so that the other words do not need its stack.
fn tell_outlook(rt: &impl Print, input: &[u8]) {
    let mut out = [0u8; desk_rooms::NAMED];
    tell_names(rt, input, &mut out);
}

// Prints what a sheet holds, or where its circle is.
fn tell_check(rt: &impl Print, input: &[u8]) {
    let mut out = [0u8; desk_rooms::CHECK];
    let n = clerk_check::check_output(input, &mut out);
    let _ = rt.write_all(&out[..n]);
}

// Prints a sheet's card with nothing known yet.
fn tell_blank(rt: &impl Print, input: &[u8]) {
    let mut out = [0u8; desk_rooms::CARD];
    let n = clerk_check::blank_output(input, &mut out);
    let _ = rt.write_all(&out[..n]);
}

// Reads until the space is full or the input ends, and tells how much came. A read that fails ends it.
fn read_full<R: Read>(from: &mut R, space: &mut [u8]) -> usize
    ensures { result ≤ length space.new }
{
    let mut n = 0;
    for _ in 0..u64::MAX {
        if n == space.len() {
            return n;
        }
        match from.read(&mut space[n..]) {
            Ok(0) => return n,
            Ok(k) => n += k,
            Err(error) => {
                if error.kind() != ErrorKind::Interrupted {
                    return n;
                }
            }
        }
    }
    n
}

// The requests for three papers. One byte more than is taken is read, so that a longer input is told as LONG.
fn why(rt: &(impl Input + Print)) {
    let mut input = [0u8; limits::DESK_BYTES + 1];
    let n = read_full(&mut rt.reader(), &mut input);
    tell_why(rt, &input[..n]);
}

fn card(rt: &(impl Input + Print)) {
    let mut input = [0u8; limits::DESK_BYTES + 1];
    let n = read_full(&mut rt.reader(), &mut input);
    tell_card(rt, &input[..n]);
}

fn outlook(rt: &(impl Input + Print)) {
    let mut input = [0u8; limits::DESK_BYTES + 1];
    let n = read_full(&mut rt.reader(), &mut input);
    tell_outlook(rt, &input[..n]);
}

// Those for a sheet alone, likewise.
fn check(rt: &(impl Input + Print)) {
    let mut input = [0u8; limits::SHEET_BYTES + 1];
    let n = read_full(&mut rt.reader(), &mut input);
    tell_check(rt, &input[..n]);
}

fn blank(rt: &(impl Input + Print)) {
    let mut input = [0u8; limits::SHEET_BYTES + 1];
    let n = read_full(&mut rt.reader(), &mut input);
    tell_blank(rt, &input[..n]);
}

// What there is, a line for each word.
fn words(rt: &impl Print) {
    let _ = rt.write_all(
        b"clerk why: for each status why it changed, or what stopped each rule\nclerk card: the next card alone\n",
    );
    let _ = rt.write_all(b"clerk outlook: what may still come, in names\n");
    let _ = rt.write_all(
        b"clerk check: whether a sheet is taken, or where its circle is\nclerk blank: a sheet's card with nothing known yet\n",
    );
}

// Whether the word is `k`.
fn is(word: &[u8], k: &[u8]) -> bool {
    word.len() == k.len() && text::starts(word, k)
}

// The request with a word; where there is none, nothing is read.
fn request(rt: &(impl Input + Print), word: &[u8]) {
    if is(word, b"why") {
        why(rt);
        return;
    }
    if is(word, b"card") {
        card(rt);
        return;
    }
    if is(word, b"outlook") {
        outlook(rt);
        return;
    }
    if is(word, b"check") {
        check(rt);
        return;
    }
    if is(word, b"blank") {
        blank(rt);
        return;
    }
    words(rt);
}

// A word that is missing, or longer than any that there is, is told as none.
fn main(rt: HostRuntime) {
    let mut word = [0u8; 16];
    let n = rt.arg(1, &mut word).unwrap_or(0);
    request(&rt, &word[..n]);
}
