// Ascending lists of distinct numbers in the front of a lent slice.
#![tactic(auto)]

ghost use Rattle.std.specs.Prelude.{◌≡◌, ◌++◌, ◌≤◌, ◌<◌, ◌&&◌, ltb, eqb, length, get_or, take, drop};
ghost use Rattle.meaning.specs.Outlook.{insert};
ghost use Rattle.theory.specs.Lists.Ascending.{Up};
ghost use Rattle.sets.specs.Front.{Front, below, shifted};

// How many of the first n numbers are below v.
fn lower_bound(a: &[u32], n: usize, v: u32) -> usize
    requires { (n ≤ length a.now) × Up (take n a.now) }
    ensures { (result ≡ below v (take n a.now)) × (result ≤ n) }
{
    let mut lo = 0;
    let mut hi = n;
    while lo < hi {
        let mid = lo + (hi - lo) / 2;
        if a[mid] < v {
            lo = mid + 1;
        } else {
            hi = mid;
        }
    }
    lo
}

// Whether v stands at `pos`, before n.
fn stands(a: &[u32], pos: usize, n: usize, v: u32) -> bool
    requires { n ≤ length a.now }
    ensures { result ≡ (ltb pos n && eqb (get_or a.now pos 0) v) }
{
    if n <= pos {
        return false;
    }
    a[pos] == v
}

// Puts v in at `pos`, and moves what stands from there to n up by one.
fn shift_in(a: &mut [u32], pos: usize, n: usize, v: u32)
    requires { (pos ≤ n) × (n < length a.old) }
    ensures { a.new ≡ shifted pos n v a.old }
{
    let mut k = pos;
    let mut carry = v;
    while k < n {
        let t = a[k];
        a[k] = carry;
        carry = t;
        k += 1;
    }
    a[n] = carry;
}

// Puts v into the ascending list that the first n numbers are, unless it is there; answers the list's length.
pub fn insert(a: &mut [u32], n: usize, v: u32) -> usize
    requires { (n < length a.old) × Up (take n a.old) }
    ensures { Front (insert v (take n a.old)) result a.old a.new }
{
    let pos = lower_bound(a, n, v);
    if stands(a, pos, n, v) {
        return n;
    }
    shift_in(a, pos, n, v);
    n + 1
}

// Copies the first n numbers of `src` to the front of `dst`.
pub fn copy_front(src: &[u32], n: usize, dst: &mut [u32])
    requires { (n ≤ length src.now) × (n ≤ length dst.old) }
    ensures { dst.new ≡ take n src.now ++ drop n dst.old }
{
    dst[..n].copy_from_slice(&src[..n]);
}
