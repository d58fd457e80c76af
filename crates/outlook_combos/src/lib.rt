// The choice with a number, of one number from each of 16 lists.
#![tactic(auto)]

ghost use Rattle.std.specs.Prelude.{◌≡◌, ◌≤◌, ◌<◌, length};
ghost use Rattle.meaning.specs.Limits.{field_limit};
ghost use Rattle.outlook_combos.specs.Numbered.{split, sum, product, choice};

// The choice with the number x among `count`; the lists stand one after another in `flat`, and `lens` has their lengths.
pub fn combo(x: usize, count: usize, lens: &[usize], flat: &[u32]) -> [u64; limits::FIELDS]
    requires x_lt_count { (x < count) × (count ≡ product lens.now) }
    requires lens_len { (length lens.now ≡ field_limit) × (sum lens.now ≤ length flat.now) }
    ensures { result ≡ choice (split lens.now flat.now) x }
{
    let mut v = [0u64; limits::FIELDS];
    let mut rest = x;
    let mut c = count;
    let mut base = 0;
    for f in 0..limits::FIELDS {
        let p = lens[f];
        c /= p;
        v[f] = u64::from(flat[base + rest / c]);
        rest %= c;
        base += p;
    }
    v
}
