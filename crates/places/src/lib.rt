// Small numbers as places of tables, and the lower of two.
#![tactic(auto)]

ghost use Rattle.std.specs.Prelude.{◌≡◌, ◌<◌, ◌-◌, min, take, drop};

// A byte as a place. Its bound keeps the nodes of a status from overflowing.
pub fn of_byte(byte: u8) -> usize
    ensures { (result ≡ byte) × (result < 256) }
{
    usize::from(byte)
}

// A number of two bytes as a place: where a word stands, or a line.
pub fn of_pair(pair: u16) -> usize
    ensures { (result ≡ pair) × (result < 65536) }
{
    usize::from(pair)
}

// The lower of the two: what stands behind the last place of a table is not asked for.
pub fn lower(a: usize, b: usize) -> usize
    ensures { result ≡ min a b }
{
    a.min(b)
}

// What stands from the place `from` up to `to`, as far as there is any.
#[tactic(auto, using(crate::proofs::Parts::between_part))]
pub fn between<T>(items: &[T], from: usize, to: usize) -> &[T]
    ensures { result.now ≡ take (to - from) (drop from items.now) }
{
    let end = to.min(items.len());
    let start = from.min(end);
    &items[start..end]
}
