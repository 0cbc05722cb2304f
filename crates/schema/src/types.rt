// Types of variables and fields.
ghost use Rattle.std.specs.Prelude.{◌≡◌, ◌-◌, ◌≤◌, ◌↔◌, true, IfOk, IsTrue, nat_lt, slice_get};
ghost use Rattle.schema.specs.Told.{Told, Itself};
ghost use Rattle.schema.specs.Types.{ReadsType};
ghost use Rattle.schema.specs.TypeTold.{TypeIs, ReadsBang, OpeningTold};

use crate::tokens::{Name, Tokens};
use text::fault::Fault;
use text::token::Token;

pub const MOST_LEVELS: usize = 8;

// One for the name, and one for each list around it.
pub const MARKS: usize = MOST_LEVELS + 1;

// What a type's name stands for.
#[derive(Clone, Copy, Debug, PartialEq)]
pub enum Base {
    Int,
    Float,
    String,
    Boolean,
    Id,
    // The indices of declared types: of scalars, enums and input objects.
    Custom(usize),
    Enum(usize),
    Input(usize),
    // No input type.
    Output,
    // Nothing: a text may write such a name, which is refused after its grammar was tested.
    Unknown,
}

// A type, without its name in a text.
#[derive(Clone, Copy)]
pub struct Shape<B = Base> {
    // What the name stands for.
    pub base: B,
    // How many lists stand around the name.
    pub levels: usize,
    // Of the name itself at 0, of each list around it at 1 and up, of the whole type at `levels`. An array, so that a
    // type is copied and needs no heap. That there are 8 levels at most is ensured by what reads one: as a ghost field
    // it would be asked of all who make one.
    pub non_null: [bool; MARKS],
}

impl<B: Copy> Shape<B> {
    pub fn is_list(self) -> bool
        ensures { result ≡ nat_lt 0 self.levels }
    {
        self.levels > 0
    }

    pub fn is_non_null(self) -> bool
        ensures { IsTrue result ↔ (slice_get self.non_null self.levels ≡ Some true) }
    {
        self.non_null.get(self.levels) == Some(&true)
    }

    // The type of a list's items; of a type that is no list, the type itself.
    pub fn item(self) -> Shape<B>
        ensures { result ≡ record self { levels = self.levels - 1 } }
    {
        Shape {
            levels: self.levels.saturating_sub(1),
            ..self
        }
    }
}

// A type as a text writes it; of the name it may not be known yet what it stands for.
#[derive(Clone, Copy)]
pub struct Type<'a, B = Base> {
    pub shape: Shape<B>,
    pub name: &'a [u8],
    // The offset of the name in its text.
    pub place: usize,
}

impl<'a, B: Copy> Type<'a, B> {
    // The same type where its name stands for `base`.
    pub fn of<C: Copy>(self, base: C) -> Type<'a, C>
        ensures shape { result.shape ≡ record { base = base; levels = self.entry.shape.levels; non_null = self.entry.shape.non_null } }
        ensures name { result.name ≡ self.entry.name }
        ensures place { result.place ≡ self.entry.place }
    {
        let Type { shape, name, place } = self;
        let Shape {
            levels,
            non_null,
            ..
        } = shape;
        Type {
            shape: Shape {
                base,
                levels,
                non_null,
            },
            name,
            place,
        }
    }
}

// The type that comes next.
pub(crate) fn read_type<'a>(tokens: &mut Tokens<'a>) -> Result<Type<'a, ()>, Fault>
    ensures told { Told 1 (λ N. ReadsType N 8) TypeIs tokens.old tokens.new result }
    ensures levels { IfOk result (λ ty. ty.shape.levels ≤ 8) }
{
    let levels = opening(tokens)?;
    let Name { name, place } = tokens.name()?;
    let mut non_null = [false; MARKS];
    non_null[0] = non_null_mark(tokens)?;
    for level in 0..levels {
        tokens.expect(Token::CloseBracket)?;
        non_null[level + 1] = non_null_mark(tokens)?;
    }
    Ok(Type {
        shape: Shape {
            base: (),
            levels,
            non_null,
        },
        name,
        place,
    })
}

// How many `[` come next.
fn opening(tokens: &mut Tokens<'_>) -> Result<usize, Fault>
    ensures { OpeningTold tokens.old tokens.new result }
{
    let mut levels = 0;
    while let Some(place) = tokens.eat(Token::OpenBracket)? {
        if levels >= MOST_LEVELS {
            return Err(Fault::TooDeep(place));
        }
        levels += 1;
    }
    Ok(levels)
}

// Whether a `!` comes next.
fn non_null_mark(tokens: &mut Tokens<'_>) -> Result<bool, Fault>
    ensures { Told 0 ReadsBang Itself tokens.old tokens.new result }
{
    Ok(tokens.eat(Token::Bang)?.is_some())
}
