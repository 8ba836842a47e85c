// A rule image that has passed the check, and what stands where in it. The check costs more than a look, and is made once
// (`validity`): that it has passed is in the type. Places are worked out as document 01 gives them: with chunks of four each
// look would have to make them first, behind the header.
#![tactic(auto)]

ghost use Rattle.std.specs.Prelude.{◌<◌, ◌≡◌, true, length};
ghost use mathlib.Core.List.{flat_map};
ghost use Rattle.rewriting.specs.Rules.{rule};
ghost use Rattle.layout.specs.Image.{body, read, valid};
ghost use Rattle.layout.specs.Places.{right_side_of};
ghost use Rattle.layout.specs.Words as Words;

use layout::RightSide;

// Bytes that are a rule image.
#[derive(Clone, Copy)]
pub struct Image<'a> {
    pub bytes: &'a [u8],
    pub ghost valid: { valid bytes.now ≡ true },
}

// A rule image, and the number of the empty string's state.
#[derive(Clone, Copy)]
pub struct Rooted<'a> {
    pub image: Image<'a>,
    pub root: usize,
    pub ghost rooted: { root ≡ Words.root (read image.bytes.now).rules },
}

#[tactic(auto, using(crate::proofs::Places::places))]
impl Image<'_> {
    ghost use Rattle.image.specs.Sets.{set_of};

    // S, the number of symbols.
    pub fn symbols(self) -> usize
        ensures { result ≡ (set_of self.entry).symbols }
    {
        usize::from(self.bytes[0])
    }

    // R, the number of rules.
    pub fn rules(self) -> usize
        ensures { result ≡ length (set_of self.entry).rules }
    {
        usize::from(self.bytes[1])
    }

    // E, the number of events.
    pub fn events(self) -> usize
        ensures { result ≡ (set_of self.entry).events }
    {
        usize::from(self.bytes[3])
    }

    // The number of symbols of rule i's left side.
    pub fn left_length(self, i: usize) -> usize
        requires { i < length (set_of self).rules }
        ensures { result ≡ length (rule (set_of self.entry).rules i).left }
    {
        usize::from(self.bytes[4 + 4 * i])
    }

    // Whether rule i has the mark.
    pub fn marked(self, i: usize) -> bool
        requires { i < length (set_of self).rules }
        ensures { result ≡ (rule (set_of self.entry).rules i).marked }
    {
        self.bytes[7 + 4 * i] == 1
    }

    // The right side of rule i.
    pub fn right_side(self, i: usize) -> RightSide
        requires { i < length (set_of self).rules }
        ensures { result ≡ right_side_of (rule (set_of self.entry).rules i).right }
    {
        let n = self.bytes[6 + 4 * i];
        if self.bytes[5 + 4 * i] == 1 {
            RightSide::Close(u64::from(n))
        } else {
            RightSide::Put(usize::from(n))
        }
    }

    // The number of symbols of rule i's body: its left symbols and, where its right side is a string, its right symbols.
    pub fn body_length(self, i: usize) -> usize
        requires { i < length (set_of self).rules }
        ensures { result ≡ length (body (rule (set_of self.entry).rules i)) }
    {
        let left = self.left_length(i);
        match self.right_side(i) {
            RightSide::Put(n) => left + n,
            RightSide::Close(_) => left,
        }
    }

    // How many symbols all bodies have.
    pub fn bodies_length(self) -> usize
        ensures { result ≡ length (flat_map body (set_of self.entry).rules) }
    {
        self.bytes.len() - (4 + 4 * self.rules())
    }
}
