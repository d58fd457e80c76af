// What is told of a sheet alone, put into lent space: its counts, and a line for each edge of a circle.
#![tactic(auto)]

ghost use Rattle.std.specs.Prelude.{◌≡◌, cond, ◌≤◌, ◌<◌, ◌+◌, ltb, length, take};
ghost use Rattle.meaning.specs.Text.{text};
ghost use Rattle.meaning.specs.Write.{line};
ghost use Rattle.meaning.specs.Clerk.{count_line};
ghost use Rattle.limits.specs.Sizes.{node_room};
ghost use Rattle.name.specs.Names.{name_of};
ghost use Rattle.sheet_tables.specs.Heads.{Sized};
ghost use Rattle.theory.specs.Writing.Lent.{Wrote};
ghost use Rattle.clerk_rounds.specs.Lines.{heads_text, counts_text, sign_text, node_part, edge_text, told_on, place_text, round_text, cycle_text, sheet_text, Held};

use graph_circle::Circle;
use graph_tests::Tests;
use name::Name;
use sheet_tables::Heads;

// The line of a key and a count.
fn put_count(out: &mut [u8], at: usize, key: &[u8], n: usize) -> usize
    requires { at + length (count_line key.now n) ≤ length out.old }
    ensures { Wrote at (count_line key.now n) out.old out.new result }
{
    let a = space::put_text(out, at, key);
    let b = space::put_byte(out, a, b'=');
    space::put_number(out, b, n as u64, b'\n')
}

// The line of the model, at the start of `out`.
fn put_model(out: &mut [u8], model: Name) -> usize
    requires { length (line (text "model") (name_of model)) ≤ length out.old }
    ensures { Wrote 0 (line (text "model") (name_of model)) out.old out.new result }
{
    let a = space::put_text(out, 0, b"model=");
    let b = name::spell(out, a, model);
    space::put_byte(out, b, b'\n')
}

// The lines of what stands above the rules, up to the stages.
fn put_heads(out: &mut [u8], heads: Heads) -> usize
    requires { length (heads_text heads) ≤ length out.old }
    ensures { Wrote 0 (heads_text heads) out.old out.new result }
{
    let a = put_model(out, heads.model);
    let b = put_count(out, a, b"fields", heads.fields);
    let c = put_count(out, b, b"events", heads.events);
    put_count(out, c, b"stages", heads.stages)
}

// What a sheet holds, at the start of `out`.
fn put_counts(out: &mut [u8], heads: Heads, rules: usize, leaves: usize) -> usize
    requires { length (counts_text heads rules leaves) ≤ length out.old }
    ensures { Wrote 0 (counts_text heads rules leaves) out.old out.new result }
{
    let a = put_heads(out, heads);
    let b = put_count(out, a, b"miles", heads.miles);
    let c = put_count(out, b, b"rules", rules);
    put_count(out, c, b"leaves", leaves)
}

// The sign of a node: those that rise are even.
fn put_sign(out: &mut [u8], at: usize, k: usize) -> usize
    requires { at + length (sign_text k) ≤ length out.old }
    ensures { Wrote at (sign_text k) out.old out.new result }
{
    if k % 2 == 0 {
        return space::put_text(out, at, b"+");
    }
    space::put_text(out, at, b"-")
}

// A node, and the space behind it.
fn put_node(out: &mut [u8], at: usize, heads: Heads, k: usize) -> usize
    requires { Sized heads × (k < node_room) × (at + length (node_part heads k) ≤ length out.old) }
    ensures { Wrote at (node_part heads k) out.old out.new result }
{
    let a = put_sign(out, at, k);
    let b = name::spell(out, a, clerk_reasons::name_of(heads, k / 2));
    space::put_byte(out, b, b' ')
}

// The line of the edge from p to k, which is told with the line `on`.
fn put_edge(out: &mut [u8], at: usize, heads: Heads, p: usize, k: usize, on: usize) -> usize
    requires { Sized heads × (p < node_room) × (k < node_room) × (at + length (edge_text heads p k on) ≤ length out.old) }
    ensures { Wrote at (edge_text heads p k on) out.old out.new result }
{
    let a = space::put_text(out, at, b"circle=");
    let b = put_node(out, a, heads, p);
    let c = put_node(out, b, heads, k);
    space::put_number(out, c, on as u64, b'\n')
}

// The line with which the edge from p to k is told: that of the first rule that gives it.
// Where none does, a child closes with its parent, and the line is that of the child.
fn told_on(heads: Heads, tests: Tests, words: &[u64], p: usize, k: usize) -> usize
    requires { Sized heads × (p < node_room) × (k < node_room) }
    ensures { result ≡ told_on heads words.now (take tests.count tests.rows) p k }
{
    let line = graph_edges::edge_line(tests, words, p, k);
    if line == 0 {
        return 2 + heads.fields + heads.events + k / 2;
    }
    line
}

// The place behind the place i, around a circle of `len` nodes.
fn behind(i: usize, len: usize) -> usize
    requires { i < len }
    ensures { (result ≡ cond (ltb (i + 1) len) (i + 1) 0) × (result < len) }
{
    if i + 1 < len {
        return i + 1;
    }
    0
}

// The line of the edge from the place i of a circle to the place behind it.
fn put_place(
    out: &mut [u8],
    at: usize,
    heads: Heads,
    tests: Tests,
    words: &[u64],
    circle: Circle,
    i: usize,
) -> usize
    requires { Sized heads
        × Held circle.nodes
        × (circle.len ≤ node_room)
        × (i < circle.len)
        × (at + length (place_text heads words.now (take tests.count tests.rows) circle i) ≤ length out.old) }
    ensures { Wrote at (place_text heads words.now (take tests.count tests.rows) circle i) out.old out.new result }
{
    let nodes = circle.nodes;
    let p = places::of_byte(nodes[i]);
    let k = places::of_byte(nodes[behind(i, circle.len)]);
    put_edge(out, at, heads, p, k, told_on(heads, tests, words, p, k))
}

// A line for each edge around the circle.
fn put_round(
    out: &mut [u8],
    at: usize,
    heads: Heads,
    tests: Tests,
    words: &[u64],
    circle: Circle,
) -> usize
    requires { Sized heads
        × Held circle.nodes
        × (circle.len ≤ node_room)
        × (at + length (round_text heads words.now (take tests.count tests.rows) (take circle.len circle.nodes)) ≤ length out.old) }
    ensures { Wrote at (round_text heads words.now (take tests.count tests.rows) (take circle.len circle.nodes))
        out.old out.new result }
{
    let mut to = at;
    for i in 0..circle.len {
        to = put_place(out, to, heads, tests, words, circle, i);
    }
    to
}

// The refusal of a sheet whose rules depend on each other in a circle, and the circle behind it.
fn put_cycle(out: &mut [u8], heads: Heads, tests: Tests, words: &[u64], circle: Circle) -> usize
    requires { Sized heads
        × Held circle.nodes
        × (circle.len ≤ node_room)
        × (length (cycle_text heads words.now (take tests.count tests.rows) (take circle.len circle.nodes)) ≤ length out.old) }
    ensures { Wrote 0 (cycle_text heads words.now (take tests.count tests.rows) (take circle.len circle.nodes))
        out.old out.new result }
{
    let a = desk_print::put_refusal(out, reply::CYCLE, reply::SHEET, 0);
    put_round(out, a, heads, tests, words, circle)
}

// What is told of a sheet in order, at the start of `out`: its counts where its tests have a testing order, otherwise CYCLE and a line for each edge of its
// circle.
pub fn put_sheet(
    out: &mut [u8],
    heads: Heads,
    rules: usize,
    leaves: usize,
    tests: Tests,
    words: &[u64],
) -> usize
    requires { Sized heads × (length (sheet_text heads rules leaves words.now (take tests.count tests.rows)) ≤ length out.old) }
    ensures { Wrote 0 (sheet_text heads rules leaves words.now (take tests.count tests.rows)) out.old out.new result }
{
    let statuses = heads.stages + heads.miles;
    let sorted = graph_edges::testing_order(tests, words, statuses);
    if sorted.is_some() {
        return put_counts(out, heads, rules, leaves);
    }
    put_cycle(
        out,
        heads,
        tests,
        words,
        graph_edges::circle_of(tests, words, statuses),
    )
}
