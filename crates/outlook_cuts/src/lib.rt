// The cuts of a field, from the words of conditions.
#![tactic(auto)]

ghost use Rattle.std.specs.Prelude.{◌+◌, ◌*◌, ◌≤◌, ◌<◌, length, take};
ghost use Rattle.theory.specs.Lists.Ascending.{Up};
ghost use Rattle.sets.specs.Front.{Front};
ghost use Rattle.outlook_cuts.specs.Codes.{cut_code, word_cuts, cut_codes, added};

// The code of the highest number.
const LAST: u64 = limits::HIGHEST + 1;

// Puts the code in, where a cut can be there.
fn add_cut(a: &mut [u32], n: usize, code: u64) -> usize
    requires { (n < length a.old) × Up (take n a.old) }
    ensures { Front (added (cut_code code) (take n a.old)) result a.old a.new }
{
    if code < 2 {
        return n;
    }
    if LAST < code {
        return n;
    }
    sets::insert(a, n, code as u32)
}

// Puts in the cuts of the field f by one word.
fn add_word(a: &mut [u32], n: usize, w: u64, f: usize) -> usize
    requires { (n + 1 < length a.old) × Up (take n a.old) }
    ensures { Front (added (word_cuts f w) (take n a.old)) result a.old a.new }
{
    if w % 8 < 4 {
        return n;
    }
    if (w / 8 % 16) as usize != f {
        return n;
    }
    if w % 8 < 6 {
        return add_cut(a, n, w / 256);
    }
    let m = add_cut(a, n, w / 256 + 1);
    add_cut(a, m, w / 256)
}

// The cuts of the field f by the first `top` words, ascending, in the front of `out`; answers how many they are.
pub fn field_cuts(words: &[u64], top: usize, f: usize, out: &mut [u32]) -> usize
    requires { (top ≤ length words.now) × (2 * top < length out.old) }
    ensures { Front (cut_codes f (take top words.now)) result out.old out.new }
{
    let mut n = 0;
    for i in (0..top).rev() {
        n = add_word(out, n, words[i], f);
    }
    n
}
