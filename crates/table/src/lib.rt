// The matching table: compile, and the check that a lent table is the one that compile gives.
#![tactic(auto)]

ghost use Rattle.std.specs.Prelude.{◌≤◌, ◌≡◌, length, replicate};
ghost use Rattle.rewriting.specs.Lists.{prefix};
ghost use Rattle.layout.specs.Table.{table_of};
ghost use Rattle.layout.specs.Refusals.{numbered};
ghost use Rattle.layout.specs.Compile.{compile_of};
ghost use Rattle.layout.specs.TableCheck.{check_of};
ghost use Rattle.image.specs.Sets.{set_of};
ghost use Rattle.trie.specs.Nodes.{unused, Roomy, Built};

use image::Rooted;
use layout::Refusal;
use trie::{FEW_NODES, NODES, Node, rows};

mod compare;

// The table of the image, into an area of its length, from the trie of its states.
fn write(rooted: Rooted<'_>, trie: &mut [Node], table: &mut [u16])
    requires trie { Built (set_of rooted.image) (length trie.old) trie.old }
    requires size { length table.old ≡ length (table_of (set_of rooted.image)) }
    ensures { table.new ≡ table_of (set_of rooted.entry.image) }
{
    let n = trie.len();
    let s = rooted.image.symbols();
    table[0] = n as u16;
    table[1] = s as u16;
    let rows = 2 + n;
    rows::fill(rooted, trie, n, &mut table[rows..]);
    rows::write_matches(trie, &mut table[2..rows]);
}

// Compile for an image, with N nodes for the trie. It is built first, since the number of states decides whether the table fits.
fn compile_with<const N: usize>(rooted: Rooted<'_>, table: &mut [u16]) -> Result<usize, Refusal>
    requires room { Roomy (set_of rooted.image) N }
    requires bounded { N ≤ 514 }
    ensures answer { numbered result ≡ (compile_of rooted.entry.image.bytes.now table.old).answer }
    ensures area { table.new ≡ (compile_of rooted.entry.image.bytes.now table.old).area }
{
    let mut nodes = [Node::UNUSED; N];
    trie::begin(rooted, &mut nodes);
    let n = trie::build(rooted, &mut nodes);
    let words = 2 + n + n * rooted.image.symbols();
    if table.len() < words {
        return Err(Refusal::ShortTable);
    }
    write(rooted, &mut nodes[..n], &mut table[..words]);
    Ok(words)
}

// Writes the table of the image. A small rule set has a small array for its trie: to clear the large one takes longer than
// all the rest.
pub fn compile(image: &[u8], table: &mut [u16]) -> Result<usize, Refusal>
    ensures answer { numbered result ≡ (compile_of image.now table.old).answer }
    ensures area { table.new ≡ (compile_of image.now table.old).area }
{
    let Some(rooted) = validity::validity(image) else {
        return Err(Refusal::BadImage);
    };
    if rooted.image.bodies_length() < 63 {
        compile_with::<FEW_NODES>(rooted, table)
    } else {
        compile_with::<NODES>(rooted, table)
    }
}

// Whether the table begins with that of the image, with nodes for the trie. They are lent: with their number as a parameter, as
// compile_with has it, there are two such functions, the tests of the states are no longer compiled into one, and a check of
// large tables takes some 5 per cent longer.
fn begins_by(rooted: Rooted<'_>, nodes: &mut [Node], table: &[u16]) -> bool
    requires { (nodes.old ≡ replicate (length nodes.old) unused) × (Roomy (set_of rooted.image) (length nodes.old)) }
    ensures { result ≡ prefix (table_of (set_of rooted.entry.image)) table.now }
{
    trie::begin(rooted, nodes);
    let n = trie::build(rooted, nodes);
    compare::holds(rooted, &mut nodes[..n], table)
}

// The same, with an array of the rule set's size.
fn begins_with_table(rooted: Rooted<'_>, table: &[u16]) -> bool
    ensures { result ≡ prefix (table_of (set_of rooted.entry.image)) table.now }
{
    if rooted.image.bodies_length() < 63 {
        begins_by(rooted, &mut [Node::UNUSED; FEW_NODES], table)
    } else {
        begins_by(rooted, &mut [Node::UNUSED; NODES], table)
    }
}

// The check of a lent image and table: refusals 7 and 9.
pub fn check(image: &[u8], table: &[u16]) -> Result<(), Refusal>
    ensures { numbered result ≡ check_of image.now table.now }
{
    match validity::validity(image) {
        None => Err(Refusal::BadImage),
        Some(rooted) if begins_with_table(rooted, table) => Ok(()),
        Some(_) => Err(Refusal::OtherTable),
    }
}
