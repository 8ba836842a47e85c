// Name slots: 25 bytes each, a length byte, the name, zeros. They are arrays of bytes and no struct, since the C interface lends
// them as bytes and document 01 says what each is. What these functions ask, `symbol` and the parser have shown.
ghost use Rattle.std.specs.Prelude.{ℕ, ◌≤◌, ◌<◌, ◌≡◌, List, length, IfSome};
ghost use Rattle.grammar.specs.Names.{slot_size, slot};
ghost use Rattle.tokens.specs.Numbered.{slot_among, NumberedAs};

use grammar::SLOT_BYTES;

// The slot of a name.
pub fn slot_of(x: &[u8]) -> [u8; SLOT_BYTES]
    requires { length x.now ≤ 24 }
    ensures { result ≡ slot x.now }
{
    let mut slot = [0; SLOT_BYTES];
    slot[0] = x.len() as u8;
    slot[1..1 + x.len()].copy_from_slice(x);
    slot
}

// The first slot that is the one given. It looks at byte `last` first: where this is the last byte of the name, other slots
// mostly differ there.
pub(crate) fn find(slots: &[[u8; SLOT_BYTES]], key: &[u8; SLOT_BYTES], last: usize) -> Option<usize>
    requires { last < slot_size }
    ensures { result ≡ slot_among key.now slots.now }
{
    slots
        .iter()
        .position(|slot| slot[last] == key[last] && slot == key)
}

// At most N names, by the number of each: their slots, and how many there are.
#[derive(Clone, Copy)]
pub struct Names<const N: usize> {
    pub slots: [[u8; SLOT_BYTES]; N],
    pub count: usize,
    pub ghost inside: { count ≤ N },
}

impl<const N: usize> Names<N> {
    // The number of a name. A new one is kept in the next slot, if there is one left.
    pub fn number_of(&mut self, x: &[u8]) -> Option<usize>
        requires { length x.now ≤ 24 }
        ensures numbered { (names : List (List ℕ))
            → NumberedAs N names self.old.count self.old.slots x.now result self.new.count self.new.slots }
        ensures near { IfSome result (λ i. i ≤ self.old.count) }
    {
        let key = slot_of(x);
        if let Some(number) = find(&self.slots[..self.count], &key, x.len()) {
            return Some(number);
        }
        let number = self.count;
        if N <= number {
            return None;
        }
        self.slots[number] = key;
        self.count = number + 1;
        Some(number)
    }
}
