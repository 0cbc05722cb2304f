// A sheet's bytes as a source of raw values in JSON form.
ghost use Rattle.std.specs.Prelude.{◌≡◌, ℕ, length};
ghost use Rattle.record.specs.Kinds.{number_of};
ghost use Rattle.model.specs.Values.{Rec, Mems};
ghost use Rattle.model.specs.Coercion.{member as member_of};
ghost use Rattle.text.specs.declared.language.Language.TheVariants.{Json as JsonLanguage};
ghost use Rattle.source.specs.Heads.{flag_of, text_of};
ghost use Rattle.source.specs.Standing.{Found, Scaled};
ghost use Rattle.stored.specs.Cursors.{Leads, Held, HeldAll, HeldMems, Named, TargetTold, FollowTold, OfRecord, kind_numbered};
ghost use Rattle.stored.specs.Past.{past_at};
ghost use Rattle.stored.specs.Laws.{StoredTold, ReadsOnce, ReadsBack, AcceptsBack};
ghost use Rattle.stored.specs.OneTree.{lawful};

use crate::header::Record;
use crate::reading::Reader;
use names::names::Names;
use record::kind::{RecordKind, SCALE};
use record::limits::LONGEST_SHEET;
use source::limits::DEEPEST;
use source::raw::{Kind, Source, Span};
use std::alloc::Global;
use text::decimal::Scale;
use text::fault::Fault;
use text::language::Language;

// The bytes of a sheet that were found to be in order.
#[derive(Clone, Copy)]
pub struct Stored<'a> {
    bytes: &'a [u8],
}

// Where a cursor leads: a record by its place and kind, where its body starts, and the body.
#[derive(Clone, Copy)]
struct Target<'a> {
    place: usize,
    kind: RecordKind,
    from: usize,
    body: &'a [u8],
}

impl<'a> Target<'a> {
    // The record at `place`, if its number is that of a kind.
    fn new(place: usize, found: Record<'a>) -> Option<Target<'a>>
        ensures { TargetTold place found.entry result }
    {
        let kind = RecordKind::try_from(found.kind).ok()?;
        Some(Target {
            place,
            kind,
            from: found.from,
            body: found.body,
        })
    }

    fn kind(self) -> Kind
        ensures { result ≡ kind_numbered (number_of self.entry.kind) }
    {
        match self.kind {
            RecordKind::Boolean => Kind::Boolean,
            RecordKind::Whole => Kind::Whole,
            RecordKind::Decimal => Kind::Decimal,
            RecordKind::String => Kind::String,
            RecordKind::List => Kind::List,
            RecordKind::Object => Kind::Object,
            RecordKind::Null | RecordKind::Name => Kind::Null,
        }
    }

    fn boolean(self) -> bool
        ensures { OfRecord (λ t. result ≡ flag_of t) (number_of self.entry.kind) self.entry.body.now }
    {
        matches!((self.kind, self.body), (RecordKind::Boolean, [1]))
    }

    fn text(self) -> &'a [u8]
        ensures { OfRecord (λ t. result.now ≡ text_of t) (number_of self.entry.kind) self.entry.body.now }
    {
        match self.kind {
            RecordKind::Whole | RecordKind::String => self.body,
            RecordKind::Decimal => self.body.get(SCALE..).unwrap_or_default(),
            RecordKind::Null
            | RecordKind::Boolean
            | RecordKind::List
            | RecordKind::Object
            | RecordKind::Name => &[],
        }
    }

    fn scale(self) -> Scale
        ensures { OfRecord (λ t. Scaled t result) (number_of self.entry.kind) self.entry.body.now }
    {
        match (self.kind, self.body) {
            (RecordKind::Decimal, [sign, a, b, c, d, ..]) => Scale {
                negative: *sign == 1,
                exponent: i32::from_le_bytes([*a, *b, *c, *d]),
            },
            _ => Scale::ZERO,
        }
    }
}

impl<'a> Stored<'a> {
    // The record of the value at the cursor.
    fn follow(&self, at: usize) -> Option<Target<'_>>
        ensures { FollowTold self.now.bytes.now at result }
    {
        let bytes = self.bytes;
        if at == bytes.len() {
            return Some(Target {
                place: 0,
                kind: RecordKind::Object,
                from: 0,
                body: bytes,
            });
        }
        let (place, record) = Record::valued(bytes, at, bytes.len())?;
        Target::new(place, record)
    }
}

impl Source for Stored<'_> {
    const FORM: Language = Language::Json;

    ghost form = { JsonLanguage };

    ghost past = { λ s. past_at s.bytes.now };

    ghost start = { λ s. length s.bytes.now };

    ghost stands = { λ s. Held s.bytes.now };

    ghost named = { λ s. Named s.bytes.now };

    ghost items = { λ s. HeldAll s.bytes.now };

    ghost members = { λ s. HeldMems s.bytes.now };

    ghost laws = { lawful (λ s. s.bytes.now) };

    fn written(&self) -> Language {
        Self::FORM
    }

    fn root(&self) -> usize {
        self.bytes.len()
    }

    fn kind(&self, at: usize) -> Kind {
        self.follow(at).map_or(Kind::Null, Target::kind)
    }

    fn place(&self, at: usize) -> usize {
        self.follow(at).map_or(0, |target| target.place)
    }

    fn boolean(&self, at: usize) -> bool {
        self.follow(at).is_some_and(Target::boolean)
    }

    fn text(&self, at: usize) -> &[u8] {
        self.follow(at).map_or(&[], Target::text)
    }

    fn scale(&self, at: usize) -> Scale {
        self.follow(at).map_or(Scale::ZERO, Target::scale)
    }

    fn inside(&self, at: usize) -> Span {
        match self.follow(at) {
            Some(
                Target {
                    kind: RecordKind::List | RecordKind::Object,
                    from,
                    body,
                    ..
                },
            ) => Span {
                from,
                to: from + body.len(),
            },
            _ => Span::EMPTY,
        }
    }

    fn next(&self, span: Span) -> Option<(usize, Span)> {
        let Span { from, to } = span;
        let (_, record) = Record::valued(self.bytes, from, to)?;
        Some((
            from,
            Span {
                from: record.end(),
                to,
            },
        ))
    }

    fn name(&self, at: usize) -> &[u8] {
        Record::at(self.bytes, at, self.bytes.len())
            .map(|record| record.body)
            .unwrap_or_default()
    }
}

// A sheet's bytes, once they are found to be in order.
pub fn read_stored(heap: Global, bytes: &[u8]) -> Result<Stored<'_>, Fault>
    ensures { StoredTold bytes.now result }
{
    if bytes.len() > LONGEST_SHEET {
        return Err(Fault::BadText(0));
    }
    let mut reader = Reader {
        bytes,
        names: Names::new(heap),
    };
    reader.members(0, bytes.len(), DEEPEST)?;
    Ok(Stored { bytes })
}

// Reading has one outcome.
pub fn reads_once()
    ensures { ReadsOnce }
{}

// What was encoded within the limits is read back.
pub fn reads_back()
    ensures read { ReadsBack }
    ensures accepted { AcceptsBack }
{}
