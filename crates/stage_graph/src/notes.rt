//! Values that were noted under numbers: two notes of one number are of one value.

ghost use Rattle.std.specs.Prelude.{◌≡◌, ◌==◌, ◌+◌, ◌<◌, ◌^◌, ◌++◌, ◌∷◌, [], List, length, true, IfOk, IsTrue};
ghost use Rattle.std.specs.Prelude.{MatchBool, Some, slice_get};
ghost use mathlib.Core.List.{IsPrefix};
ghost use Rattle.stage_graph.specs.Notes.{head_of};

use logbook::{Gain, Offer, Plain, Play, Rule, Seen, Start, Word};
use std::alloc::AllocError;
use std::marker::{Brand, Model, PhantomData};

/// How many values are noted at most.
const MOST: u64 = 1 << 62;

/// The rule of the book: its word is the number of its entries.
pub struct Law;

impl<T> Rule<T, u64> for Law {
    ghost use Rattle.std.specs.Prelude.{[]};
    ghost use base.Fml.{ftrue};
    ghost use Rattle.stage_graph.specs.Notes.{IsKept};

    ghost holds = { λ cells log. IsKept cells log };

    ghost first = { [] };

    ghost hinted = { λ n log. Unit {0} };

    ghost shows = { λ log. [] };

    ghost keeps = { λ names log. ftrue };

    ghost moves = { λ ask before after answer. Unit {0} };
}

/// Nothing is traded.
pub struct Nothing;

impl<T> Gain<T, u64> for Nothing {
    ghost use base.Fml.{ftrue};

    ghost after = { λ names about answer. ftrue };
}

/// A step that adds a value.
pub struct Add;

impl<T> Play<T, u64> for Add {
    ghost use Rattle.stage_graph.specs.Notes.{Adds};

    ghost then = { Adds };
}

/// What a step adds: the value.
impl<T> Plain<T, T, u64> for Add {
    ghost use Rattle.std.specs.Prelude.{None};

    ghost ask = { λ value. value };

    ghost state = { λ value. None };
}

/// Names a register. A caller picks it at a call with `Brand`.
pub trait Naming {
    ghost use Rattle.logbook.specs.Pages.{Book};

    ghost book: { Book };
}

impl Naming for Brand {
    ghost book = { record { number = 0; log_name = 0; cells_name = 0 } };
}

/// A register without an entry, which has no name yet. Contracts see what it is to be named for.
#[derive(Drop)]
pub struct Opened<T> {
    head: Word<T, u64, Law>,
    seen: Seen<T, u64, Law>,
}

impl<T> Model for Opened<T> {
    ghost use Rattle.std.specs.Prelude.{◌≡◌, []};
    ghost use Rattle.logbook.specs.Pages.{Book, book_coded};
    ghost use Rattle.stage_graph.specs.Notes.{head_of};

    ghost Value = { Book };

    ghost coded = { book_coded };

    ghost view = { λ o. o.seen.book };

    ghost invariant = { λ o. (o.seen.log ≡ []) × (o.head ≡ head_of o.seen.book) };
}

impl<T> Opened<T> {
    pub fn new() -> Opened<T> {
        let (seen, mut first, _second) = Seen::open(Start::alone(), 0, 0);
        Opened {
            head: Word::tracked(0, &mut first),
            seen,
        }
    }

    /// The register under a name.
    pub fn named<J: Naming>(self) -> Register<T, J>
        requires { self ≡ J.book }
    {
        let Opened { head, seen } = self;
        Register {
            head: Head {
                head,
                of: PhantomData,
            },
            front: Front {
                len: 0,
                seen,
                of: PhantomData,
            },
        }
    }
}

/// The word of a register.
#[derive(Drop)]
struct Head<T, J: Naming> {
    head: Word<T, u64, Law>,
    of: PhantomData<J>,
    ghost head_is: { head ≡ head_of J.book },
}

/// The first entries of a register.
#[derive(Drop)]
struct Front<T, J: Naming> {
    len: u64,
    seen: Seen<T, u64, Law>,
    of: PhantomData<J>,
}

impl<T, J: Naming> Model for Front<T, J> {
    ghost use Rattle.std.specs.Prelude.{◌≡◌, List, length};

    ghost Value = { List T };

    ghost view = { λ f. f.seen.log };

    ghost invariant = { λ f. (f.len ≡ length f.seen.log) × (f.seen.book ≡ J.book) };
}

impl<T, J: Naming> Front<T, J> {
    fn len(&self) -> u64
        ensures { result ≡ length self.now }
    {
        self.len
    }

    fn again(&self) -> Front<T, J>
        ensures { result ≡ self.now }
    {
        Front {
            len: self.len,
            seen: self.seen.again(),
            of: PhantomData,
        }
    }

    /// Two beginnings are of one register.
    fn meet(&self, other: &Front<T, J>)
        ensures { (both : List T) × IsPrefix self.now both × IsPrefix other.now both }
    {
        let mut both = self.seen.again();
        both.learn(&other.seen);
    }

    /// Adds a value to all that was seen, and says whether it did. It did not where the register is longer.
    fn add(&mut self, head: &Head<T, J>, value: &T) -> bool
        requires { length self.old < 2 ^ 62 }
        ensures { MatchBool result (self.new ≡ self.old ++ value.now ∷ []) (Unit {0}) }
    {
        let mut offer: Offer<T, u64, Law, Nothing> = self.seen.plain::<Nothing, T, Add>(value);
        let mut pen = self.seen.no_pen();
        let len = self.len;
        let found = head
            .head
            .compare_exchange::<Add, Nothing>(len, len + 1, &mut self.seen, &mut offer, &mut pen);
        self.len = if found == len { len + 1 } else { found };
        found == len
    }
}

/// Values under numbers. One thread has it, and notes of it go anywhere.
#[derive(Drop)]
pub struct Register<T, J: Naming> {
    head: Head<T, J>,
    front: Front<T, J>,
}

impl<T, J: Naming> Register<T, J> {
    /// Notes a value under the next number. It takes no memory; the value stays where it is.
    ///
    /// # Errors
    ///
    /// Where 2^62 values are noted already.
    pub fn note(&mut self, value: &T) -> Result<Note<T, J>, AllocError>
        ensures { IfOk result (λ n. n ≡ Some value.now) }
    {
        let number = self.front.len();
        if number >= MOST {
            return Err(AllocError);
        }
        if !self.front.add(&self.head, value) {
            return Err(AllocError);
        }
        Ok(Note {
            number,
            front: self.front.again(),
        })
    }
}

/// That a value was noted under a number. It has no bytes but those of the number. Contracts see the value.
#[derive(Drop)]
pub struct Note<T, J: Naming> {
    number: u64,
    front: Front<T, J>,
}

impl<T, J: Naming> Model for Note<T, J> {
    ghost use Rattle.std.specs.Prelude.{◌<◌, Option, length, slice_get};

    ghost Value = { Option T };

    ghost view = { λ n. slice_get n.front n.number };

    ghost invariant = { λ n. n.number < length n.front };
}

impl<T, J: Naming> Note<T, J> {
    /// The same note again.
    pub fn again(&self) -> Note<T, J>
        ensures { result ≡ self.now }
    {
        Note {
            number: self.number,
            front: self.front.again(),
        }
    }

    /// Whether both are of one number, and so of one value.
    #[tactic(auto, using(crate::proofs::Beginnings::same_place))]
    pub fn is_same(&self, other: &Note<T, J>) -> bool
        ensures { IsTrue result → self.now ≡ other.now }
    {
        if self.number != other.number {
            return false;
        }
        self.front.meet(&other.front);
        true
    }
}
