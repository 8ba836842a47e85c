// What a token makes of what has been read. The module is private: what its functions ask, their callers have looked up.
// Kinds and places are told by a `match` on an enum and not by a closure or a trait object for each: it is the plainest, since an
// arm knows the place and so may call what asks for it.
ghost use Rattle.std.specs.Prelude.{◌<◌, ◌≡◌, true};
ghost use Rattle.parser.specs.declared.Place.{Place};
ghost use Rattle.grammar.specs.Tokens.{is_name};
ghost use Rattle.tokens.specs.Scanned.{token_as, Named};
ghost use Rattle.grammar.specs.Grammar.{name, word, arrow, mark, stop, after_run};
ghost use Rattle.parser.specs.Held.{byte_of, MayBegin, LeadsTo, MayClose};
ghost use Rattle.parser.specs.Reads.{Takes};

use crate::{Place, Reader, RightKind};
use layout::Refusal;
use tokens::Kind;

// A name: a letter, then letters, digits or `_`, at most 24 bytes.
#[derive(Clone, Copy)]
struct Name<'a> {
    bytes: &'a [u8],
    ghost named: { is_name bytes.now ≡ true },
}

impl RightKind {
    // Its byte in the contents of a rule.
    #[tactic(auto, unfolding(crate::specs::Held::byte_of))]
    fn byte(self) -> u8
        ensures { result ≡ byte_of self }
    {
        self as u8
    }
}

impl Reader {
    // The text's first name.
    fn first(&mut self, x: Name<'_>) -> Result<(), Refusal>
        requires { self.old.place ≡ Place.First }
        ensures { Takes (λ s. name s x.entry.bytes.now s.place) self.old result self.new }
    {
        if x.bytes == b"events".as_slice() {
            self.place = Place::Events;
            Ok(())
        } else {
            Err(Refusal::Misplaced)
        }
    }

    // A name in the list of events.
    fn event(&mut self, x: Name<'_>) -> Result<(), Refusal>
        requires { self.old.place ≡ Place.Events }
        ensures { Takes (λ s. name s x.entry.bytes.now s.place) self.old result self.new }
    {
        let before = self.symbols.count;
        let number = self.symbols.number_of(x.bytes).ok_or(Refusal::TooMany)?;
        if number < before {
            return Err(Refusal::Repeated);
        }
        Ok(())
    }

    // A name in a side: the place behind it is `to`.
    fn side_symbol(&mut self, to: Place, x: Name<'_>) -> Result<(), Refusal>
        requires place { LeadsTo self.old.place to }
        requires few { self.old.rules < 64 }
        ensures { Takes (λ s. name s x.entry.bytes.now s.place) self.old result self.new }
    {
        if 8 <= self.side {
            return Err(Refusal::TooMany);
        }
        let number = self.symbols.number_of(x.bytes).ok_or(Refusal::TooMany)?;
        self.body_bytes[self.bodies] = number as u8;
        self.place = to;
        self.bodies += 1;
        self.side += 1;
        Ok(())
    }

    // A rule's first name, behind `.` or `^`.
    fn left_symbol(&mut self, x: Name<'_>) -> Result<(), Refusal>
        requires { MayBegin self.old.place }
        ensures { Takes (λ s. name s x.entry.bytes.now s.place) self.old result self.new }
    {
        if 64 <= self.rules {
            return Err(Refusal::TooMany);
        }
        self.side_symbol(Place::Left, x)
    }

    // A name.
    fn name(&mut self, x: Name<'_>) -> Result<(), Refusal>
        ensures { Takes (λ s. name s x.entry.bytes.now s.place) self.old result self.new }
    {
        match self.place {
            Place::First => self.first(x),
            Place::Events => self.event(x),
            Place::Between | Place::Marked => self.left_symbol(x),
            Place::Left => self.side_symbol(Place::Left, x),
            Place::Right => self.side_symbol(Place::Right, x),
            Place::Ending => Err(Refusal::Misplaced),
        }
    }

    // A `#` word as a right side.
    fn right_word(&mut self, x: Name<'_>) -> Result<(), Refusal>
        requires { self.old.place ≡ Place.Right }
        ensures { Takes (λ s. word s x.entry.bytes.now s.place) self.old result self.new }
    {
        if self.side != 0 {
            return Err(Refusal::Misplaced);
        }
        if x.bytes == b"epsilon".as_slice() {
            self.place = Place::Ending;
            return Ok(());
        }
        let number = self.words.number_of(x.bytes).ok_or(Refusal::TooMany)?;
        self.place = Place::Ending;
        self.side = number as u8;
        self.kind = RightKind::Close;
        Ok(())
    }

    // A `#` word.
    fn word(&mut self, x: Name<'_>) -> Result<(), Refusal>
        ensures { Takes (λ s. word s x.entry.bytes.now s.place) self.old result self.new }
    {
        match self.place {
            Place::Right => self.right_word(x),
            _ => Err(Refusal::Misplaced),
        }
    }

    // `->`
    fn arrow(&mut self) -> Result<(), Refusal>
        ensures { Takes (λ s. arrow s s.place) self.old result self.new }
    {
        match self.place {
            Place::Left => {
                self.place = Place::Right;
                self.left = self.side;
                self.side = 0;
                Ok(())
            }
            _ => Err(Refusal::Misplaced),
        }
    }

    // `^`
    fn mark(&mut self) -> Result<(), Refusal>
        ensures { Takes (λ s. mark s s.place) self.old result self.new }
    {
        match self.place {
            Place::Between => {
                self.place = Place::Marked;
                self.marked = true;
                Ok(())
            }
            _ => Err(Refusal::Misplaced),
        }
    }

    // The end of the list of events.
    fn close_events(&mut self) -> Result<(), Refusal>
        requires { self.old.place ≡ Place.Events }
        ensures { Takes (λ s. stop s s.place) self.old result self.new }
    {
        if self.symbols.count == 0 {
            return Err(Refusal::Misplaced);
        }
        self.place = Place::Between;
        self.events = self.symbols.count;
        Ok(())
    }

    // The end of a rule: its contents.
    fn close_rule(&mut self) -> Result<(), Refusal>
        requires { MayClose self.old.place self.old.side }
        ensures { Takes (λ s. stop s s.place) self.old result self.new }
    {
        self.contents[self.rules] = [
            self.left,
            self.kind.byte(),
            self.side,
            u8::from(self.marked),
        ];
        self.place = Place::Between;
        self.rules += 1;
        self.left = 0;
        self.side = 0;
        self.kind = RightKind::Put;
        self.marked = false;
        Ok(())
    }

    // `.`
    fn stop(&mut self) -> Result<(), Refusal>
        ensures { Takes (λ s. stop s s.place) self.old result self.new }
    {
        match self.place {
            Place::Events => self.close_events(),
            Place::Right => {
                if self.side == 0 {
                    return Err(Refusal::Misplaced);
                }
                self.close_rule()
            }
            Place::Ending => self.close_rule(),
            _ => Err(Refusal::Misplaced),
        }
    }

    // A token of this kind, with this name.
    pub(crate) fn token(&mut self, kind: Option<Kind>, x: &[u8]) -> Result<(), Refusal>
        requires { Named kind x.now }
        ensures { Takes (λ s. after_run s (token_as kind x.now)) self.old result self.new }
    {
        match kind.ok_or(Refusal::NoToken)? {
            Kind::Name => self.name(Name { bytes: x }),
            Kind::Word => self.word(Name { bytes: x }),
            Kind::Arrow => self.arrow(),
            Kind::Stop => self.stop(),
            Kind::Mark => self.mark(),
        }
    }
}
