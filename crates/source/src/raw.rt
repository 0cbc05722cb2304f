// How a tree of raw values is asked.
ghost use Rattle.std.specs.Prelude.{◌≡◌, ℕ, List as Bytes, IfSome};
ghost use Rattle.text.specs.declared.language.Language.{Language};
ghost use Rattle.model.specs.Values.{Raw, Raws, Mems, list, object, place_of};
ghost use Rattle.model.specs.Coercion.{member as member_of};
ghost use Rattle.source.specs.declared.raw.Span.{Span};
ghost use Rattle.source.specs.Heads.{kind_of, flag_of, text_of};
ghost use Rattle.source.specs.Spans.{Taken, Within, Hands};
ghost use Rattle.std.specs.Iterator.{at_most};
ghost use Rattle.source.specs.Standing.{Lawful, Shrinks, LeadsItems, LeadsMembers, Found, Scaled, width};

use text::decimal::Scale;
use text::language::Language;

#[derive(Clone, Copy, Debug, PartialEq)]
pub enum Kind {
    Null,
    Boolean,
    Whole,
    Decimal,
    String,
    Enum,
    Variable,
    List,
    Object,
}

// The items or members that are still to come: cursors from `from` on, before `to`.
// No `Range`, which is not `Copy`.
#[derive(Clone, Copy, Debug)]
pub struct Span {
    pub from: usize,
    pub to: usize,
}

impl Span {
    // With nothing in it.
    pub const EMPTY: Span = Span { from: 0, to: 0 };
}

// A finite tree of raw values, asked by cursors. Asking changes nothing.
// A cursor that stands for nothing answers as null, and with nothing in it.
// Each answer is that of the tree at the cursor, whichever tree stands there.
pub trait Source: Sized {
    // The language that the values are written in.
    const FORM: Language;

    // Beside FORM: no clause can name a constant at a type with a lifetime.
    ghost form: { Language };

    // The cursor past a value and all below it.
    ghost past: { Self → ℕ → ℕ };

    // The cursor of the whole tree.
    ghost start: { Self → ℕ };

    // The tree stands at the cursor.
    ghost stands: { Self → ℕ → Raw → Type 0 };

    // The value at the cursor is that of a member of the name.
    ghost named: { Self → ℕ → Bytes ℕ → Type 0 };

    // The items, or the members, stand in the span.
    ghost items: { Self → Span → Raws → Type 0 };

    ghost members: { Self → Span → Mems → Type 0 };

    // Answers FORM.
    fn written(&self) -> Language
        ensures { result ≡ form };

    fn root(&self) -> usize
        ensures { result ≡ start self.now };

    fn kind(&self, at: usize) -> Kind
        ensures { (t : Raw) → stands self.now at t → result ≡ kind_of t };

    // The offset of the value in what it was read from.
    fn place(&self, at: usize) -> usize
        ensures { (t : Raw) → stands self.now at t → result ≡ place_of t };

    fn boolean(&self, at: usize) -> bool
        ensures { (t : Raw) → stands self.now at t → result ≡ flag_of t };

    // Of a whole number its normal form, of a decimal its digits, of a string its decoded bytes, of an enum value
    // and of a variable the name.
    fn text(&self, at: usize) -> &[u8]
        ensures { (t : Raw) → stands self.now at t → result.now ≡ text_of t };

    // Sign and exponent of a decimal.
    fn scale(&self, at: usize) -> Scale
        ensures { (t : Raw) → stands self.now at t → Scaled t result };

    // The items of a list, the members of an object.
    fn inside(&self, at: usize) -> Span
        ensures narrow { Within (past self.now at) at result }
        ensures listed { (p : ℕ) (xs : Raws) → stands self.now at (list p xs) → items self.now result xs }
        ensures fielded { (p : ℕ) (ms : Mems) → stands self.now at (object p ms) → members self.now result ms };

    // The first of them and the rest.
    fn next(&self, span: Span) -> Option<(usize, Span)>
        ensures taken { IfSome result (λ p. Taken (past self.now p.0) span p.0 p.1) }
        ensures shrinks { Shrinks span result }
        ensures item { (xs : Raws) → items self.now span xs → LeadsItems (stands self.now) (items self.now) xs result }
        ensures field { (ms : Mems) → members self.now span ms → LeadsMembers (named self.now) (stands self.now) (members self.now) ms result };

    // The name of the member whose value stands at the cursor.
    fn name(&self, at: usize) -> &[u8]
        ensures { (n : Bytes ℕ) → named self.now at n → result.now ≡ n };

    // One tree at most stands at a cursor, within the limits of a source.
    ghost laws: { Lawful stands };

    // The value of the member with that name.
    // `final`, as `values` is: a body that may be replaced cannot pass `Self` on to a bound on `Source`.
    final fn member(&self, at: usize, name: &[u8]) -> Option<usize>
        ensures { (p : ℕ) (ms : Mems) → stands self.now at (object p ms) → Found (stands self.now) (member_of ms name.now) result }
    {
        self.values(at).find(|at| self.name(*at) == name)
    }

    // The items of a list, or the members' values of an object, one by one.
    final fn values(&self, at: usize) -> Values<'_, Self>
        ensures source { result.source.now ≡ self.now }
        ensures narrow { Within (past self.now at) at result.span }
        ensures listed { (p : ℕ) (xs : Raws) → stands self.now at (list p xs) → items self.now result.span xs }
        ensures fielded { (p : ℕ) (ms : Mems) → stands self.now at (object p ms) → members self.now result.span ms }
    {
        Values {
            source: self,
            span: self.inside(at),
        }
    }
}

// The cursors of the values in a span.
#[derive(Drop)]
pub struct Values<'s, S> {
    pub source: &'s S,
    pub span: Span,
}

impl<S: Source> Iterator for Values<'_, S> {
    type Item = usize;

    ghost next_gives = { λ s r t. (t.source.now ≡ s.source.now) × Hands (S.past s.source.now) (S.named s.source.now) (S.stands s.source.now) (S.items s.source.now) (S.members s.source.now) s.span r t.span };

    ghost remaining = { λ s. at_most (width s.span) };

    fn next(&mut self) -> Option<usize> {
        let (at, rest) = self.source.next(self.span)?;
        self.span = rest;
        Some(at)
    }
}
