// The reader of rule texts.
#![tactic(auto)]

ghost use Rattle.std.specs.Prelude.{ℕ, ◌+◌, ◌≤◌, ◌≡◌, List, ◌++◌, flat_map, length};
ghost use Rattle.std.proofs.Math.Seq.{paste};
ghost use Rattle.rewriting.specs.Lists.{over};
ghost use Rattle.layout.specs.Image.{image_most, image_of};
ghost use Rattle.grammar.specs.Names.{symbols_size, words_size, names_size};
ghost use Rattle.grammar.specs.Grammar.{Between, Reading, rule_set_of};
ghost use Rattle.grammar.specs.Read.{answered, read_of};
ghost use Rattle.grammar.specs.Sound.{Sound};
ghost use Rattle.parser.specs.Reads.{numbers_in, KeptIn, Small};

use grammar::{NAMES_BYTES, SLOT_BYTES, SYMBOLS_BYTES, TEXT_BYTES, TextError};
use layout::{IMAGE_BYTES, Refusal};
use parser::{Reader, SYMBOLS, WORDS};

// The image of what has been read. Returns its length.
fn write_image(reader: &Reader, image: &mut [u8]) -> usize
    requires small { Small (numbers_in reader.now) }
    requires room { image_most ≤ length image.old }
    ensures { (s : Reading) → Sound s → s.place ≡ Between → KeptIn s reader.now
        → (result ≡ length (image_of (rule_set_of s))) × (image.new ≡ over (image_of (rule_set_of s)) image.old) }
{
    let rules = reader.rules;
    let size = reader.bodies;
    let first = 4 + 4 * rules;
    image[0] = reader.symbols.count as u8;
    image[1] = rules as u8;
    image[2] = reader.words.count as u8;
    image[3] = reader.events as u8;
    image[4..first].copy_from_slice(reader.contents[..rules].as_flattened());
    image[first..first + size].copy_from_slice(&reader.body_bytes[..size]);
    first + size
}

// The name slots: 32 of symbols, 16 of words.
fn write_names(
    symbols: &[[u8; SLOT_BYTES]; SYMBOLS],
    words: &[[u8; SLOT_BYTES]; WORDS],
    names: &mut [u8],
)
    requires { names_size ≤ length names.old }
    ensures { names.new ≡ over (flat_map (λ x. x) symbols.now ++ flat_map (λ x. x) words.now) names.old }
{
    names[..SYMBOLS_BYTES].copy_from_slice(symbols.as_flattened());
    names[SYMBOLS_BYTES..NAMES_BYTES].copy_from_slice(words.as_flattened());
}

// Reads a rule text: its image into one area, its name slots into the other. Both are made beside them and written when the
// whole text is known to be good.
pub fn read_rules(text: &[u8], image: &mut [u8], names: &mut [u8]) -> Result<usize, TextError>
    ensures answer { answered result ≡ (read_of text.now image.old names.old).answer }
    ensures image { image.new ≡ (read_of text.now image.old names.old).image }
    ensures names { names.new ≡ (read_of text.now image.old names.old).names }
{
    if TEXT_BYTES < text.len() {
        return Err(TextError {
            refusal: Refusal::LongText,
            place: 0,
        });
    }
    if image.len() < IMAGE_BYTES {
        return Err(TextError {
            refusal: Refusal::ShortArea,
            place: 0,
        });
    }
    if names.len() < NAMES_BYTES {
        return Err(TextError {
            refusal: Refusal::ShortArea,
            place: 0,
        });
    }
    let mut reader = Reader::new();
    reader.read_tokens(text)?;
    let size = write_image(&reader, image);
    write_names(&reader.symbols.slots, &reader.words.slots, names);
    Ok(size)
}
