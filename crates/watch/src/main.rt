// The program `watch`: it reads a rule text and event names from standard input and writes a line for each name. All that it
// writes comes from `report`; reading and writing are left here.
#![tactic(auto)]

ghost use Rattle.std.specs.Prelude.{◌≤◌, length};

use grammar::NAMES_BYTES;
use layout::{IMAGE_BYTES, TABLE_WORDS};
use lines::{LINE_BYTES, Line};
use machine::CAPACITY;
use report::{INPUT_BYTES, RuleAreas, Walk};
use std::io::{Read, Write};

// Reads until the buffer is full, the input ends or a read fails, and tells how many bytes there are: the library's
// `read_exact` does not tell that.
fn read_full<R: Read>(from: &mut R, buf: &mut [u8]) -> usize
    ensures { result ≤ length buf.old }
{
    let mut done = 0;
    while done < buf.len() {
        match from.read(&mut buf[done..]) {
            Ok(0) | Err(_) => break,
            Ok(got) => done += got,
        }
    }
    done
}

// Writes the lines of the events, up to the last or to the first that cannot be written.
fn write_lines<W: Write>(
    to: &mut W,
    first: Walk,
    input: &[u8],
    rules: RuleAreas<'_>,
    bytes: &mut [u8; CAPACITY],
    words: &mut [u16; CAPACITY],
    line: &mut Line<'_, LINE_BYTES>,
) {
    let mut walk = first;
    while let Some(next) = walk.next(input, rules, bytes, words, line) {
        if to.write_all(line.bytes()).is_err() {
            break;
        }
        walk = next;
    }
}

fn main(rt: HostRuntime) {
    let mut input = [0u8; INPUT_BYTES + 1];
    let n = read_full(&mut rt.stdin(), &mut input);
    let mut image = [0; IMAGE_BYTES];
    let mut names = [0; NAMES_BYTES];
    let mut table = [0; TABLE_WORDS];
    let mut bytes = [0; CAPACITY];
    let mut words = [0; CAPACITY];
    let mut line_area = [0; LINE_BYTES];
    let mut line = Line::new(&mut line_area);
    let mut out = rt.stdout();
    match report::begin(
        &input[..n],
        &mut image,
        &mut names,
        &mut table,
        &mut bytes,
        &mut words,
        &mut line,
    ) {
        None => {
            let _ = out.write_all(line.bytes());
        }
        Some(walk) => {
            let rules = RuleAreas {
                image: &image,
                names: &names,
                table: &table,
            };
            write_lines(
                &mut out,
                walk,
                &input[..n],
                rules,
                &mut bytes,
                &mut words,
                &mut line,
            )
        }
    }
}
