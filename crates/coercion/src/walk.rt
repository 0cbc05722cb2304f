// The walk of a raw value at its type.
ghost use Rattle.std.specs.Prelude.{◌≡◌, ℕ, ◌+◌, ◌^◌, ◌<◌, ◌≤◌, true, false, cond, length, map, OnOk};
ghost use Rattle.record.specs.Held.{size, Kept};
ghost use mathlib.Core.Option.{Option as Perhaps};
ghost use Rattle.model.specs.Values.{Name, Def, Scalar, scalar as scalar_at, Raw, Mems, Form, place_of, object as object_at};
ghost use Rattle.model.specs.Coercion.{member as member_of};
ghost use Rattle.model.specs.Refusals.{Here};
ghost use Rattle.model.specs.Scalars.{as_enum, scalar_at as plain_at};
ghost use Rattle.source.specs.Heads.{kind_of, scalar_kind};
ghost use Rattle.schema.specs.Spans.{rows_in, inside_at};
ghost use Rattle.schema.specs.Documents.{Document};
ghost use Rattle.coercion.specs.Frames.{Stacked, left, field_in, default_in};
ghost use Rattle.coercion.specs.Levels.{opens_kept, follows, Rest as OpenRest};
ghost use Rattle.coercion.specs.States.{Opened};
ghost use Rattle.coercion.specs.Openings.{AsksIs, OpensAs, RestIs};
ghost use Rattle.coercion.specs.Told.{form_of, Means, PlainTold, FieldIs, NextIs, beside, Later, MemberTold};

use crate::fault::{Spot, ValueFault};
use crate::frames::{Frame, Frames, Inside, Rest, Within};
use crate::rule::ScalarRule;
use lookup::{Lookup, Table};
use record::body::Body;
use record::working::Working;
use schema::definition::{Field, Schema};
use schema::scalars;
use schema::types::{Base, Shape, Type};
use source::raw::{Kind, Source, Span};
use source::value::Literal;
use text::decimal;
use text::language::Language;

// What stays the same throughout a walk.
#[derive_where(Clone, Copy)]
pub struct Walk<'w, 's, S, R> {
    pub source: &'w S,
    pub schema: &'w Schema<'s>,
    // The defaults of the schema.
    pub defaults: &'w Literal<'w, 's>,
    pub rule: &'w R,
    // The index of the variable whose value is walked.
    pub variable: usize,
    // Whether faults are told at the places of the source; in a default at 0.
    pub placed: bool,
}

// A record that is kept as it is.
#[derive(Clone, Copy)]
struct Opening<'s> {
    body: Body<'s>,
    inside: Inside,
}

impl Inside {
    // Items of a type.
    fn items(rest: Rest, item: Shape) -> Inside
        ensures { result ≡ record { rest = Some rest; shape = Some item; scalar = None } }
    {
        Inside {
            rest: Some(rest),
            shape: Some(item),
            scalar: None,
        }
    }
}

// A value in a walk.
#[derive(Clone, Copy)]
struct Step<'s> {
    // Of a member of an object.
    name: Option<&'s [u8]>,
    // The cursor of the value.
    at: usize,
    // What it is in.
    within: Within,
}

impl Frame {
    // The value at the cursor in the record, where that is still to come after it.
    fn value<'n>(&mut self, name: Option<&'n [u8]>, at: usize, rest: Option<Rest>) -> Step<'n>
        ensures step { result ≡ record { name = name.entry; at = at; within = self.old.within } }
        ensures frame { self.new ≡ record self.old { inside = record self.old.inside { rest = rest } } }
    {
        self.inside.rest = rest;
        Step {
            name,
            at,
            within: self.within,
        }
    }
}

impl<'w, 's, S: Source, R: ScalarRule> Walk<'w, 's, S, R> {
    // The walk of the defaults that the walk comes to.
    fn of_defaults(&self) -> Walk<'w, 's, Literal<'w, 's>, R>
        ensures source { result.source ≡ self.now.defaults }
        ensures schema { result.schema ≡ self.now.schema }
        ensures defaults { result.defaults ≡ self.now.defaults }
        ensures rule { result.rule ≡ self.now.rule }
        ensures variable { result.variable ≡ self.now.variable }
        ensures placed { result.placed ≡ false }
    {
        Walk {
            source: self.defaults,
            schema: self.schema,
            defaults: self.defaults,
            rule: self.rule,
            variable: self.variable,
            placed: false,
        }
    }

    fn spot(&self, at: usize, within: Within) -> Spot
        ensures place { (t : Raw) → S.stands self.now.source.now at t → result.place ≡ cond self.now.placed (place_of t) 0 }
        ensures variable { result.variable ≡ Some self.now.variable }
        ensures field { result.field ≡ field_in within }
    {
        let place = if self.placed {
            self.source.place(at)
        } else {
            0
        };
        Spot {
            place,
            variable: Some(self.variable),
            field: within.field(),
        }
    }

    // A number as a Float.
    fn float(&self, at: usize, kind: Kind) -> Option<Body<'w>> {
        let source = self.source;
        let text = source.text(at);
        let (scale, digits) = match kind {
            Kind::Decimal => (source.scale(at), text),
            Kind::Whole => decimal::of_whole(text),
            _ => return None,
        };
        let fits = match (kind, source.written()) {
            (Kind::Whole, Language::Json) => scalars::safe_integer(text),
            _ => scalars::finite(digits, scale.exponent),
        };
        fits.then_some(Body::Decimal { scale, digits })
    }

    // A value of an enum: in JSON a string, in a literal a name.
    fn enum_value(&self, at: usize, kind: Kind, index: usize) -> Option<Body<'w>>
        ensures { (p : ℕ) (s : Scalar) → S.stands self.now.source.now at (scalar_at p s) → kind ≡ scalar_kind s → PlainTold result (as_enum (map (λ v. v.name.now) (rows_in self.now.schema.now.values.items (inside_at self.now.schema.now.types.items index))) (form_of S.form) s) }
    {
        let text = self.source.text(at);
        let written = match self.source.written() {
            Language::Json => Kind::String,
            Language::Graphql => Kind::Enum,
        };
        (kind == written && self.schema.has_value(index, text)).then_some(Body::String(text))
    }

    // The body of the record of a value at a built-in scalar or an enum, which may not take it.
    fn scalar(&self, at: usize, kind: Kind, base: Base) -> Option<Body<'w>>
        ensures { (d : Def) (p : ℕ) (s : Scalar) → Means self.now.schema.now base d → S.stands self.now.source.now at (scalar_at p s) → kind ≡ scalar_kind s → PlainTold result (plain_at (form_of S.form) d s) }
    {
        let source = self.source;
        match (base, kind) {
            (Base::Int, Kind::Whole) => {
                let text = source.text(at);
                scalars::int(text).then_some(Body::Whole(text))
            }
            (Base::Float, _) => self.float(at, kind),
            (Base::String | Base::Id, Kind::String) => Some(Body::String(source.text(at))),
            (Base::Boolean, Kind::Boolean) => Some(Body::Boolean(source.boolean(at))),
            (Base::Id, Kind::Whole) => Some(Body::Whole(source.text(at))),
            (Base::Enum(index), _) => self.enum_value(at, kind, index),
            _ => None,
        }
    }

    // The record of a value that is kept as it is.
    fn contents(&self, at: usize, kind: Kind, scalar: Option<usize>) -> Opening<'w>
        ensures { (D : Document) (a : Perhaps Name) (t : Raw) → S.stands self.now.source.now at t → kind ≡ kind_of t → AsksIs D scalar a → Opened (opens_kept a t) → OpensAs (S.stands self.now.source.now) (S.items self.now.source.now) (S.members self.now.source.now) D result.body result.inside (opens_kept a t) }
    {
        let source = self.source;
        let text = source.text(at);
        let (body, rest) = match kind {
            Kind::Null | Kind::Variable => (Body::Null, None),
            Kind::Boolean => (Body::Boolean(source.boolean(at)), None),
            Kind::Whole => (Body::Whole(text), None),
            Kind::Decimal => (
                Body::Decimal {
                    scale: source.scale(at),
                    digits: text,
                },
                None,
            ),
            Kind::String | Kind::Enum => (Body::String(text), None),
            Kind::List => (Body::List, Some(Rest::Items(source.inside(at)))),
            Kind::Object => (Body::Object, Some(Rest::Members(source.inside(at)))),
        };
        let inside = Inside {
            rest,
            shape: None,
            scalar,
        };
        Opening { body, inside }
    }

    // The first member of an object whose name no field has.
    fn undeclared(&self, object: usize, fields: &[Field<'_>]) -> Option<usize> {
        let mut expected = 0;
        for at in self.source.values(object) {
            let name = self.source.name(at);
            // Most often the members come in the order of the fields.
            if fields.get(expected).is_some_and(|field| field.name == name) {
                expected += 1;
            } else if Table::new(fields).find(name).is_none() {
                return Some(at);
            }
        }
        None
    }

    // The body of the record of an object at an input object's type; what is to come in it is left in `inside`, which
    // comes in empty.
    // Not inlined, as `next_field` is not, so that what goes over lists and scalars stays small.
    #[inline(never)]
    fn object(
        &self,
        step: &Step<'_>,
        index: usize,
        inside: &mut Inside,
    ) -> Result<Body<'w>, ValueFault> {
        if let Some(at) = self.undeclared(step.at, self.schema.fields_of(index)) {
            return Err(ValueFault::UnknownKey(self.spot(at, step.within)));
        }
        inside.rest = Some(Rest::Fields {
            members: self.source.inside(step.at),
            fields: self.schema.inside(index),
        });
        Ok(Body::Object)
    }

    // The same of a value that is not null, where no list is wanted.
    fn named(
        &self,
        step: &Step<'_>,
        kind: Kind,
        base: Base,
        inside: &mut Inside,
    ) -> Result<Body<'w>, ValueFault> {
        match base {
            Base::Custom(index) => {
                let opening = self.contents(step.at, kind, Some(index));
                *inside = opening.inside;
                Ok(opening.body)
            }
            Base::Input(index) if kind == Kind::Object => self.object(step, index, inside),
            _ => self
                .scalar(step.at, kind, base)
                .ok_or_else(|| ValueFault::WrongValue(self.spot(step.at, step.within))),
        }
    }

    // The same of a value at a type.
    fn typed(
        &self,
        step: &Step<'_>,
        kind: Kind,
        shape: &Shape,
        inside: &mut Inside,
    ) -> Result<Body<'w>, ValueFault> {
        let Step { at, within, .. } = *step;
        match (kind, shape.base) {
            (Kind::Null, _) if shape.is_non_null() => {
                Err(ValueFault::NullValue(self.spot(at, within)))
            }
            (Kind::Null, _) => Ok(Body::Null),
            (Kind::List, _) if shape.is_list() => {
                *inside = Inside::items(Rest::Items(self.source.inside(at)), shape.item());
                Ok(Body::List)
            }
            _ if shape.is_list() => {
                *inside = Inside::items(Rest::Single(at), shape.item());
                Ok(Body::List)
            }
            (_, base) => self.named(step, kind, base, inside),
        }
    }

    // The body of the record of a value, after the tests that come before it is opened. What is to come in it, and the
    // custom scalar whose rule is to be asked, are left in `inside`, which comes in empty. Without a type it is kept as it is.
    // Not inlined, and what is inside is left where the caller has room for it, so that it is not copied on the way.
    #[inline(never)]
    fn opening(
        &self,
        step: &Step<'_>,
        shape: Option<&Shape>,
        inside: &mut Inside,
    ) -> Result<Body<'w>, ValueFault> {
        let Step { at, within, .. } = *step;
        let kind = self.source.kind(at);
        if kind == Kind::Variable {
            return Err(ValueFault::VariableInValue(self.spot(at, within)));
        }
        let Some(shape) = shape else {
            let opening = self.contents(at, kind, None);
            *inside = opening.inside;
            return Ok(opening.body);
        };
        self.typed(step, kind, shape, inside)
    }

    // Asks the rule about a record that is written, if it is the value of a custom scalar.
    fn settle(
        &self,
        scalar: Option<usize>,
        bytes: &[u8],
        at: usize,
        within: Within,
    ) -> Result<(), ValueFault> {
        match scalar {
            Some(index) if !self.rule.accepts(self.schema.type_name(index), bytes) => {
                Err(ValueFault::ScalarRefused(self.spot(at, within)))
            }
            _ => Ok(()),
        }
    }

    // Opens the record of a value at a type, with its name before it if it has one.
    fn begin(
        &self,
        step: &Step<'_>,
        shape: Option<&Shape>,
        out: &mut Working<'_>,
        frames: &mut Frames,
    ) -> Result<(), ValueFault>
        requires inside { out.old.used ≤ size out.old }
        requires short { size out.old < 2 ^ 32 }
        requires stacked { Stacked out.old.used frames.old.items }
        ensures kept { Kept out.old out.new }
        ensures opened { OnOk result ((out.old.used + 6 ≤ out.new.used) × (length frames.new.items ≤ length frames.old.items + 1) × Stacked out.new.used frames.new.items) }
    {
        let Step { name, at, within } = *step;
        let mut inside = Inside::default();
        let body = self.opening(step, shape, &mut inside)?;
        if frames.is_full() {
            return Err(ValueFault::TooDeep(self.spot(at, within)));
        }
        let start = out
            .begin(name, body)
            .ok_or_else(|| ValueFault::NoSpace(self.spot(at, within)))?;
        if inside.rest.is_none() {
            return self.settle(inside.scalar, &out.written()[start..], at, within);
        }
        frames.push(Frame {
            inside,
            start,
            at,
            within,
        });
        Ok(())
    }

    // The member with the name of an object, and the members after it that are not looked at yet.
    fn member(&self, object: usize, members: Span, name: &[u8]) -> Option<(usize, Span)>
        ensures { (p : ℕ) (ms ns : Mems) → S.stands self.now.source.now object (object_at p ms) → Later ns ms → S.members self.now.source.now members ns → MemberTold (S.stands self.now.source.now) (S.members self.now.source.now) ms (member_of ms name.now) result }
    {
        match self.source.next(members) {
            Some((at, rest)) if self.source.name(at) == name => Some((at, rest)),
            _ => Some((self.source.member(object, name)?, members)),
        }
    }

    // The value of a field, if it has one: the member or the default.
    fn field(
        &self,
        frame: &Frame,
        members: Span,
        index: usize,
        field: &'w Field<'s>,
    ) -> Result<Option<(Step<'w>, Span)>, ValueFault> {
        let member = self.member(frame.at, members, field.name);
        let (at, in_default, members) = if let Some((at, rest)) = member {
            (at, frame.within.is_default(), rest)
        } else if let Some(at) = field.default {
            (at, true, members)
        } else if field.ty.shape.is_non_null() {
            let spot = self.spot(frame.at, Within::Field(index));
            return Err(ValueFault::MissingField(spot));
        } else {
            return Ok(None);
        };
        let within = if in_default {
            Within::Default(index)
        } else {
            Within::Field(index)
        };
        let name = Some(field.name);
        Ok(Some((Step { name, at, within }, members)))
    }

    // The first of the fields that has a value; its type, and what comes after it, are left in the record.
    #[inline(never)]
    fn next_field(
        &self,
        frame: &mut Frame,
        members: Span,
        fields: Span,
    ) -> Result<Option<Step<'w>>, ValueFault>
        ensures { frame.new.start ≡ frame.old.start }
    {
        for index in fields.from..fields.to {
            let Some(field) = self.schema.field(index) else {
                continue;
            };
            if let Some((step, members)) = self.field(frame, members, index, field)? {
                let fields = Span {
                    from: index + 1,
                    to: fields.to,
                };
                frame.inside.rest = Some(Rest::Fields { members, fields });
                frame.inside.shape = Some(field.ty.shape);
                return Ok(Some(step));
            }
        }
        Ok(None)
    }

    // The first of the values that are still to come in a record, which is left without it.
    fn next(&self, frame: &mut Frame) -> Result<Option<Step<'w>>, ValueFault>
        ensures told { (D : Document) (k : ℕ) (p : Form) (h : Here) (x : OpenRest) → RestIs (S.stands self.now.source.now) (S.items self.now.source.now) (S.members self.now.source.now) D frame.old.inside.rest frame.old.inside.shape x → FieldIs self.now.schema.now.fields.items (field_in frame.old.within) h.field → default_in frame.old.within ≡ h.in_default → NextIs (S.stands self.now.source.now) (S.items self.now.source.now) (S.members self.now.source.now) self.now.schema.now.fields.items D frame.old (beside frame.new result) (follows k p h x) }
        ensures same { frame.new.start ≡ frame.old.start }
    {
        let source = self.source;
        match frame.inside.rest {
            None => Ok(None),
            Some(Rest::Single(at)) => Ok(Some(frame.value(None, at, None))),
            Some(Rest::Items(span)) => {
                let Some((at, span)) = source.next(span) else {
                    return Ok(None);
                };
                Ok(Some(frame.value(None, at, Some(Rest::Items(span)))))
            }
            Some(Rest::Members(span)) => {
                let Some((at, span)) = source.next(span) else {
                    return Ok(None);
                };
                let name = source.name(at);
                Ok(Some(frame.value(Some(name), at, Some(Rest::Members(span)))))
            }
            Some(Rest::Fields { members, fields }) => self.next_field(frame, members, fields),
        }
    }

    // Closes the innermost open record.
    fn close(&self, out: &mut Working<'_>, frames: &mut Frames) -> Result<(), ValueFault>
        requires inside { out.old.used ≤ size out.old }
        requires short { size out.old < 2 ^ 32 }
        requires stacked { Stacked out.old.used frames.old.items }
        requires open { 0 < length frames.old.items }
        ensures kept { Kept out.old out.new }
        ensures used { out.new.used ≡ out.old.used }
        ensures falls { OnOk result (length frames.new.items + 1 ≡ length frames.old.items) }
        ensures stacked { OnOk result (Stacked out.new.used frames.new.items) }
    {
        let Some(frame) = frames.as_slice().last() else {
            return Ok(());
        };
        out.finish(frame.start);
        self.settle(
            frame.inside.scalar,
            &out.written()[frame.start..],
            frame.at,
            frame.within,
        )?;
        frames.truncate(frames.len() - 1);
        Ok(())
    }

    // Goes on in the innermost open record: closes it, or opens the next one in it.
    // Inlined, so that the loop goes on without a result to be handed on.
    #[inline(always)]
    fn turn(&self, out: &mut Working<'_>, frames: &mut Frames) -> Result<(), ValueFault>
        requires inside { out.old.used ≤ size out.old }
        requires short { size out.old < 2 ^ 32 }
        requires stacked { Stacked out.old.used frames.old.items }
        requires open { 0 < length frames.old.items }
        ensures kept { Kept out.old out.new }
        ensures falls { OnOk result (left out.new frames.new.items + 1 ≤ left out.old frames.old.items) }
        ensures stacked { OnOk result (Stacked out.new.used frames.new.items) }
    {
        let Some(frame) = frames.get_mut(frames.len() - 1) else {
            return Ok(());
        };
        let Some(step) = self.next(frame)? else {
            return self.close(out, frames);
        };
        let shape = frame.inside.shape;
        if step.within.is_default() {
            self.of_defaults().begin(&step, shape.as_ref(), out, frames)
        } else {
            self.begin(&step, shape.as_ref(), out, frames)
        }
    }

    // The same again and again, until no record is open or the innermost is not of this source: `in_default` says whether
    // this is the source of the defaults.
    fn run(
        &self,
        in_default: bool,
        out: &mut Working<'_>,
        frames: &mut Frames,
    ) -> Result<(), ValueFault>
        requires inside { out.old.used ≤ size out.old }
        requires short { size out.old < 2 ^ 32 }
        requires stacked { Stacked out.old.used frames.old.items }
        requires open { 0 < length frames.old.items }
        ensures kept { Kept out.old out.new }
        ensures falls { OnOk result (left out.new frames.new.items + 1 ≤ left out.old frames.old.items) }
        ensures stacked { OnOk result (Stacked out.new.used frames.new.items) }
    {
        loop {
            self.turn(out, frames)?;
            match frames.as_slice().last() {
                Some(frame) if frame.within.is_default() == in_default => {}
                _ => return Ok(()),
            }
        }
    }

    // The working bytes and the open frames stand side by side: of a struct that holds a guard, its maker is not told
    // what the guard's bytes are at its end.
    // Writes the name and the record of the value at `at`, after what is written.
    pub fn walk(
        &self,
        name: &[u8],
        at: usize,
        ty: &Type<'_>,
        out: &mut Working<'_>,
        frames: &mut Frames,
    ) -> Result<(), ValueFault>
        requires inside { out.old.used ≤ size out.old }
        requires short { size out.old < 2 ^ 32 }
        ensures { Kept out.old out.new }
    {
        frames.clear();
        let step = Step {
            name: Some(name),
            at,
            within: Within::Outside,
        };
        self.begin(&step, Some(&ty.shape), out, frames)?;
        let defaults = self.of_defaults();
        while let Some(frame) = frames.as_slice().last() {
            if frame.within.is_default() {
                defaults.run(true, out, frames)?;
            } else {
                self.run(false, out, frames)?;
            }
        }
        Ok(())
    }
}
