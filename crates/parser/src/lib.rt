// The tokens of a rule text, and what each makes of what has been read.
#![tactic(auto)]

ghost use Rattle.parser.specs.Held.{Held};

use grammar::{SLOT_BYTES, TextError};
use layout::Refusal;
use tokens::bytes::Class;
use tokens::names::Names;
use tokens::{bytes, names};

mod after_token;

// The most symbols, words and rules, and the most bytes of the bodies of so many rules.
pub const SYMBOLS: usize = 32;

pub const WORDS: usize = 16;

pub const RULES: usize = 64;

pub const BODIES_BYTES: usize = 1024;

// Where in the grammar a token stands.
#[derive(Clone, Copy)]
pub enum Place {
    First,
    Events,
    Between,
    Marked,
    Left,
    Right,
    Ending,
}

// What a right side is: a string that is put in, or a verdict that closes.
#[repr(u8)]
#[derive(Clone, Copy)]
pub enum RightKind {
    Put,
    Close,
}

// What has been read. Some sound reading is kept so (`held`), and that bounds each number, so that no index is tested.
#[derive(Clone, Copy)]
pub struct Reader {
    pub place: Place,
    pub symbols: Names<SYMBOLS>,
    pub words: Names<WORDS>,
    pub events: usize,
    // How many rules there are, and the contents of each: bytes and no struct, since they go into the image as they are.
    pub rules: usize,
    pub contents: [[u8; 4]; RULES],
    // The bodies of the rules one behind another, and how many bytes they have. They differ in length, so they are no rows; and a
    // struct of their own would be no plainer: one place writes a byte of them, and `held` bounds their number.
    pub body_bytes: [u8; BODIES_BYTES],
    pub bodies: usize,
    // Of the rule begun: the length of its left side, that of the side that is open or the verdict, what its right side is, and
    // whether it has the mark.
    pub left: u8,
    pub side: u8,
    pub kind: RightKind,
    pub marked: bool,
    pub ghost held: { ∥ Held
        (record {
          place = place;
          symbols = symbols.count;
          words = words.count;
          events = events;
          rules = rules;
          bodies = bodies;
          left = left;
          side = side;
          kind = kind;
          marked = marked;
        }) symbols.slots words.slots contents body_bytes ∥₁ },
}

impl Reader {
    ghost use Rattle.std.specs.Prelude.{length};
    ghost use Rattle.grammar.specs.Tokens.{runs};
    ghost use Rattle.grammar.specs.Grammar.{begun};
    ghost use Rattle.grammar.specs.Read.{ended, read_runs};
    ghost use Rattle.parser.specs.Reads.{KeptIn, Finishes};

    // Nothing read: two words, `fail` and `succeed`.
    pub fn new() -> Reader
        ensures { KeptIn begun result }
    {
        let mut words = [[0; SLOT_BYTES]; WORDS];
        words[0] = names::slot_of(b"fail");
        words[1] = names::slot_of(b"succeed");
        Reader {
            place: Place::First,
            symbols: Names {
                slots: [[0; SLOT_BYTES]; SYMBOLS],
                count: 0,
            },
            words: Names {
                slots: words,
                count: 2,
            },
            events: 0,
            rules: 0,
            contents: [[0; 4]; RULES],
            body_bytes: [0; BODIES_BYTES],
            bodies: 0,
            left: 0,
            side: 0,
            kind: RightKind::Put,
            marked: false,
        }
    }

    // The end of the text.
    fn ended(&self, size: usize) -> Result<(), TextError>
        ensures { Finishes (ended size) self.now result self.now }
    {
        match self.place {
            Place::Between => Ok(()),
            _ => Err(TextError {
                refusal: Refusal::Misplaced,
                place: size,
            }),
        }
    }

    // The tokens of a text, up to the first at which it breaks, behind what has been read: for each run, the bytes of its name up
    // to its end, two at a time where both may be in one, then what the token makes of it. A byte that may not be in a name ends
    // both loops, which are nested and left by label: the form that document 01 names.
    pub fn read_tokens(&mut self, text: &[u8]) -> Result<(), TextError>
        ensures { Finishes (λ s. read_runs (length text.now) s (runs text.now)) self.old result self.new }
    {
        let mut at: usize = 0;
        'tokens: loop {
            let start = at + bytes::gap_of(&text[at..]);
            if text.len() <= start {
                break 'tokens self.ended(text.len());
            }
            let from = start + bytes::lead_of(&text[start..]);
            let mut end = from;
            loop {
                if bytes::is_name_pair(text, end) {
                    end += 2;
                    continue;
                }
                match bytes::class_at(text, end) {
                    Class::Name => end += 1,
                    Class::Separator => break,
                    Class::Other => {
                        break 'tokens Err(TextError {
                            refusal: Refusal::NoToken,
                            place: start,
                        });
                    }
                }
            }
            let kind = bytes::kind_of(&text[start..end]);
            if let Err(refusal) = self.token(kind, &text[from..end]) {
                break 'tokens Err(TextError {
                    refusal,
                    place: start,
                });
            }
            at = end;
        }
    }
}
