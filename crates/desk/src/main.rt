// The desk program: reads sheet, card and event line from standard input, and prints what comes of them.
#![tactic(auto)]

ghost use Rattle.std.specs.Prelude.{◌≤◌, length};

use std::io::{ErrorKind, Read};

// Prints what comes of the whole input. A closed output does no harm.
fn answer(rt: &impl Print, input: &[u8]) {
    let mut out = [0u8; desk_rooms::DESK];
    let n = desk_output::desk_output(input, &mut out);
    let _ = rt.write_all(&out[..n]);
}

// Reads until the space is full or the input ends, and tells how much came. A read that fails ends it.
fn read_full<R: Read>(from: &mut R, space: &mut [u8]) -> usize
    ensures { result ≤ length space.new }
{
    let mut n = 0;
    for _ in 0..u64::MAX {
        if n == space.len() {
            return n;
        }
        match from.read(&mut space[n..]) {
            Ok(0) => return n,
            Ok(k) => n += k,
            Err(error) => {
                if error.kind() != ErrorKind::Interrupted {
                    return n;
                }
            }
        }
    }
    n
}

// One byte more than is taken is read, so that a longer input is told as LONG.
fn main(rt: HostRuntime) {
    let mut input = [0u8; limits::DESK_BYTES + 1];
    let n = read_full(&mut rt.reader(), &mut input);
    answer(&rt, &input[..n]);
}
