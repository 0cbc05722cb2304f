// The nodes of values that tokens begin, and the members of an object that is still read.
ghost use Rattle.std.specs.Prelude.{◌≡◌, ℕ, ◌+◌, ◌<◌, ◌≤◌, List as Bytes, true, false, cond, length, IfOk, IfSome, OnOk, OnErr};
ghost use Rattle.text.specs.Places.{is_end};
ghost use Rattle.text.specs.NormalForm.{Added};
ghost use Rattle.text.specs.StringDecode.{Decoded};
ghost use Rattle.names.specs.declared.part.Part.TheVariants.{Text, Pool};
ghost use Rattle.names.specs.Parts.{PartFits, bytes_of};
ghost use Rattle.model.specs.Values.{Mems};
ghost use Rattle.model.specs.Coercion.{member as member_of};
ghost use Rattle.source.specs.Nodes.{headed};
ghost use Rattle.source.specs.Standing.{Found, is_there};
ghost use Rattle.source.specs.Table.{table_of, Held, HeldMems, Named};

use crate::nodes::{Content, Node, Nodes};
use crate::raw::Span;
use names::part::Part;
use text::decimal::Scale;
use text::fault::Fault;
use text::language::Language;
use text::number::NumberKind;
use text::token::{Lexeme, Token};
use text::{decimal, string};

// A fault inside the token that starts at `start`.
fn in_token(fault: Fault, start: usize) -> Fault {
    match fault {
        Fault::LongNumber(_) => Fault::LongNumber(start),
        Fault::NoMemory => Fault::NoMemory,
        _ => Fault::BadText(start),
    }
}

// A name from `start` to `end`: null, a boolean or an enum value.
fn word_content(word: &[u8], start: usize, end: usize) -> Content {
    match word {
        b"null" => Content::Null,
        b"true" => Content::Boolean(true),
        b"false" => Content::Boolean(false),
        _ => Content::Enum(Part::Text { start, end }),
    }
}

// A whole number that ends at `end`, where its normal form ends too.
fn whole_content(spelled: &[u8], end: usize) -> Content {
    let start = end.saturating_sub(decimal::whole(spelled).len());
    Content::Whole(Part::Text { start, end })
}

impl Nodes {
    // What a string writes, between the quotation marks of the token that starts at `start`.
    pub fn string(
        &mut self,
        raw: &[u8],
        plain: bool,
        start: usize,
        language: Language,
    ) -> Result<Part, Fault>
        ensures list { self.new.list ≡ self.old.list }
        ensures names { self.new.names ≡ self.old.names }
        ensures plain { plain ≡ true → self.new.pool ≡ self.old.pool }
        ensures decoded { plain ≡ false → OnOk result (Decoded language raw.now self.old.pool.items self.new.pool.items) }
        ensures part { start + 1 + length raw.now ≤ usize.MAX → IfOk result (λ p. p ≡ cond plain (Text (start + 1) (start + 1 + length raw.now)) (Pool (length self.old.pool.items) (length self.new.pool.items))) }
        ensures err { OnErr result (self.new.pool.items ≡ self.old.pool.items) }
    {
        if plain {
            let start = start.saturating_add(1);
            return Ok(Part::Text {
                start,
                end: start.saturating_add(raw.len()),
            });
        }
        let from = self.pool.len();
        match string::decode(raw, language, &mut self.pool) {
            Ok(()) => Ok(Part::Pool {
                start: from,
                end: self.pool.len(),
            }),
            Err(fault) => Err(in_token(fault, start)),
        }
    }

    // The normal form of a decimal, whose token starts at `start`: its digits, and sign and exponent.
    pub fn decimal(&mut self, spelled: &[u8], start: usize) -> Result<(Part, Scale), Fault>
        ensures list { self.new.list ≡ self.old.list }
        ensures names { self.new.names ≡ self.old.names }
        ensures normal { IfOk result (λ d. Added spelled.now self.old.pool.items self.new.pool.items d.1) }
        ensures part { IfOk result (λ d. d.0 ≡ Pool (length self.old.pool.items) (length self.new.pool.items)) }
        ensures err { OnErr result (self.new.pool.items ≡ self.old.pool.items) }
    {
        let from = self.pool.len();
        match decimal::normal(spelled, &mut self.pool) {
            Ok(scale) => Ok((
                Part::Pool {
                    start: from,
                    end: self.pool.len(),
                },
                scale,
            )),
            Err(fault) => Err(in_token(fault, start)),
        }
    }

    // What the value that begins with the token says of itself.
    fn content_of(&mut self, lexeme: Lexeme<'_>, language: Language) -> Result<Content, Fault>
        ensures begins { OnOk result (is_end lexeme.entry.token ≡ false) }
        ensures list { self.new.list ≡ self.old.list }
        ensures names { self.new.names ≡ self.old.names }
        ensures err { OnErr result (self.new.pool.items ≡ self.old.pool.items) }
    {
        let Lexeme { token, start, end } = lexeme;
        match token {
            Token::OpenBracket => Ok(Content::List),
            Token::OpenBrace => Ok(Content::Object),
            // Its name comes later: till then the empty part after the sign.
            Token::Dollar => Ok(Content::Variable(Part::Text { start: end, end })),
            Token::Name(word) => Ok(word_content(word, start, end)),
            Token::Number(spelled, NumberKind::Whole) => Ok(whole_content(spelled, end)),
            Token::Number(spelled, NumberKind::Decimal) => {
                let (digits, scale) = self.decimal(spelled, start)?;
                Ok(Content::Decimal { scale, digits })
            }
            Token::Text { raw, plain } => {
                let text = self.string(raw, plain, start, language)?;
                Ok(Content::String(text))
            }
            _ => Err(Fault::BadText(start)),
        }
    }

    // The node of a value that begins with the token; nothing is below it yet.
    pub fn begin(
        &mut self,
        lexeme: Lexeme<'_>,
        name: Option<Part>,
        language: Language,
    ) -> Result<Node, Fault>
        ensures begins { OnOk result (is_end lexeme.entry.token ≡ false) }
        ensures node { IfOk result (λ n. n ≡ headed n.content lexeme.entry.start name) }
        ensures list { self.new.list ≡ self.old.list }
        ensures names { self.new.names ≡ self.old.names }
        ensures err { OnErr result (self.new.pool.items ≡ self.old.pool.items) }
    {
        let content = self.content_of(lexeme, language)?;
        Ok(Node::new(content, lexeme.start, name))
    }

    // The name of the member whose value stands at the cursor.
    fn name<'s>(&'s self, text: &'s [u8], at: usize) -> &'s [u8]
        ensures { (n : Bytes ℕ) → Named (table_of text.entry.now self.entry.now) at n → result.now ≡ n }
    {
        // A match: what a closure gives `map` does not show here.
        match self.get(at).name {
            Some(part) => self.bytes(text, part),
            None => &[],
        }
    }

    // The first member with the name among the members of the span.
    pub fn find(&self, text: &[u8], members: Span, name: &[u8]) -> Option<usize>
        ensures within { IfSome result (λ at. (members.from ≤ at) × (at < members.to) × (at < length self.now.list.items)) }
        ensures found { (ms : Mems) → HeldMems (table_of text.now self.now) members ms → Found (Held (table_of text.now self.now)) (member_of ms name.now) result }
    {
        let Span { mut from, to } = members;
        while from < to {
            let size = self.get(from).size;
            if size == 0 || size > to - from {
                return None;
            }
            if self.name(text, from) == name {
                return Some(from);
            }
            from += size;
        }
        None
    }

    // Whether a member of the object, which is still open, has the name.
    pub fn has_member(&self, text: &[u8], object: usize, name: Part) -> bool
        ensures { (ms : Mems) → object < length self.now.list.items → HeldMems (table_of text.now self.now) (record { from = object + 1; to = length self.now.list.items }) ms → PartFits text.now self.now.pool.items name → result ≡ is_there (member_of ms (bytes_of text.now self.now.pool.items name)) }
    {
        let members = Span {
            from: object.saturating_add(1),
            to: self.list.len(),
        };
        self.find(text, members, self.bytes(text, name)).is_some()
    }
}
