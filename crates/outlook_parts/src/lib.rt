// The values to be tried in each field: the lowest of each part of a missing field, and what is known.
#![tactic(auto)]

ghost use Rattle.std.specs.Prelude.{◌≡◌, ◌+◌, ◌*◌, ◌≤◌, ◌<◌, length, take};
ghost use Rattle.meaning.specs.Limits.{field_limit};
ghost use Rattle.limits.specs.Sizes.{word_room};
ghost use Rattle.sets.specs.Front.{Front};
ghost use Rattle.outlook_parts.specs.Tried.{flat_room, Coded, tried_at, tried_from, Filled};

// Room for the lists of all fields, and for those of one field more, with which the parts are too many: a field has the lowest number and two cuts for each
// word.
pub const ROOM: usize = limits::PARTS + limits::FIELDS + 2 * limits::WORDS + 1;

// The values to be tried in the field f, whose value has the code v, in the front of `out`; answers how many they are.
fn put_field(words: &[u64], top: usize, fields: usize, f: usize, v: u64, out: &mut [u32]) -> usize
    requires { (top ≤ length words.now) × (2 * top + 1 < length out.old) × (v < 4294967296) }
    ensures { Front (tried_at (take top words.now) fields f v) result out.old out.new }
{
    if fields <= f {
        out[0] = v as u32;
        return 1;
    }
    if v != 0 {
        out[0] = v as u32;
        return 1;
    }
    out[0] = 1;
    let n = outlook_cuts::field_cuts(words, top, f, &mut out[1..]);
    n + 1
}

// The values to be tried in each field, one field's after another's in `flat`, and how many each field has in `lens`. Answers the product; none where it
// exceeds the limit: there the rest is left out.
pub fn fill(
    words: &[u64],
    top: usize,
    fields: usize,
    values: &[u64],
    flat: &mut [u32],
    lens: &mut [usize],
) -> Option<usize>
    requires top_in_bounds { (top ≤ length words.now) × (top ≤ word_room) × (flat_room ≤ length flat.old) × (length lens.old ≡ field_limit) }
    requires values_len { (length values.now ≡ field_limit) × Coded values.now }
    ensures { Filled (tried_from (take top words.now) fields 0 values.now) result
        flat.old flat.new lens.old lens.new }
{
    let mut total = 0;
    let mut p: usize = 1;
    for f in 0..limits::FIELDS {
        let n = put_field(words, top, fields, f, values[f], &mut flat[total..]);
        lens[f] = n;
        p *= n;
        if limits::PARTS < p {
            return None;
        }
        total += n;
    }
    Some(p)
}
