// How a sheet is filled.
ghost use Rattle.std.specs.Prelude.{◌≡◌, ◌-◌, ◌^◌, ◌<◌, ◌≤◌, ◌++◌, length, take, replicate, IfOk, OnErr, vec_len};
ghost use Rattle.coercion.specs.declared.fault.ValueFault.TheVariants.{NoSpace};
ghost use Rattle.sheet.specs.declared.fault.RequestFault.TheVariants.{Value};
ghost use Rattle.record.specs.Held.{size, Kept};
ghost use Rattle.sheet.specs.Loaded.{Loaded};
ghost use Rattle.sheet.specs.Loads.{Replaced, taken};

use crate::fault::RequestFault;
use crate::held::{Contents, Extent, GREATEST_CAPACITY, MOST_VARIABLES, Sheet};
use coercion::fault::{Spot, ValueFault};
use coercion::frames::Frames;
use coercion::rule::ScalarRule;
use coercion::walk::Walk;
use reader::document::{JsonText, read};
use record::working::Working;
use schema::definition::Schema;
use schema::operation::{Operation, Variable};
use source::raw::{Kind, Source};
use source::value::Literal;
use std::alloc::Global;

// The cursor of the object that holds the variables' values.
fn object<S: Source>(source: &S) -> Result<usize, ValueFault> {
    let root = source.root();
    let spot = Spot {
        place: source.place(root),
        ..Spot::default()
    };
    match source.kind(root) {
        Kind::Object => Ok(root),
        Kind::Variable => Err(ValueFault::VariableInValue(spot)),
        _ => Err(ValueFault::WrongValue(spot)),
    }
}

// Writes `from` into the front of `to`, and zeros into the rest.
fn replace(to: &mut [u8], from: &[u8])
    requires { length from.now ≤ length to.old }
    ensures { to.new ≡ from.now ++ replicate (length to.old - length from.now) 0 }
{
    let (front, rest) = to.split_at_mut(from.len());
    front.copy_from_slice(from);
    rest.fill(0);
}

// What the variables of a request are walked with.
#[derive_where(Clone, Copy)]
struct Request<'w, 's, 'o, S, R> {
    schema: &'w Schema<'s>,
    operation: &'w Operation<'o>,
    rule: &'w R,
    source: &'w S,
    // The cursor of the object that holds the values.
    object: usize,
}

impl<'s, S: Source, R: ScalarRule> Request<'_, 's, '_, S, R> {
    // The walk of the variable's value in a source.
    fn walk_in<'v, T: Source>(
        &'v self,
        source: &'v T,
        defaults: &'v Literal<'v, 's>,
        variable: usize,
        placed: bool,
    ) -> Walk<'v, 's, T, R> {
        Walk {
            source,
            schema: self.schema,
            defaults,
            rule: self.rule,
            variable,
            placed,
        }
    }

    // Writes the name and the record of a variable, if it has a value, and tells where they stand.
    fn write_variable(
        &self,
        index: usize,
        variable: &Variable<'_>,
        out: &mut Working<'_>,
        frames: &mut Frames,
    ) -> Result<Option<Extent>, RequestFault>
        requires inside { out.old.used ≤ size out.old }
        requires short { size out.old < 2 ^ 32 }
        ensures { Kept out.old out.new }
    {
        let start = out.written().len();
        let defaults = self.schema.literal(0);
        if let Some(at) = self.source.member(self.object, variable.name) {
            let walk = self.walk_in(self.source, &defaults, index, true);
            walk.walk(variable.name, at, &variable.ty, out, frames)?;
        } else if let Some(at) = variable.default {
            let literal = self.operation.literal(at);
            let walk = self.walk_in(&literal, &defaults, index, false);
            walk.walk(variable.name, literal.root(), &variable.ty, out, frames)?;
        } else if variable.ty.shape.is_non_null() {
            return Err(RequestFault::MissingVariable {
                place: variable.place,
                variable: index,
            });
        } else {
            return Ok(None);
        }
        let size = out.written().len() - start;
        Ok(Some(Extent { start, size }))
    }

    // Writes the names and records of all variables, and tells where each stands.
    fn write(&self, out: &mut Working<'_>) -> Result<[Option<Extent>; MOST_VARIABLES], RequestFault>
        requires inside { out.old.used ≤ size out.old }
        requires short { size out.old < 2 ^ 32 }
        ensures { Kept out.old out.new }
    {
        let mut extents = [None; MOST_VARIABLES];
        let mut frames = Frames::new();
        for (index, variable) in self.operation.variables.iter().enumerate() {
            let spot = Spot {
                place: variable.place,
                variable: Some(index),
                ..Spot::default()
            };
            let extent = extents.get_mut(index).ok_or(ValueFault::NoSpace(spot))?;
            *extent = self.write_variable(index, variable, out, &mut frames)?;
        }
        Ok(extents)
    }

    // Writes the values into the working bytes, and from there into the bytes of a sheet. A refusal leaves those as they were.
    fn fill(&self, working: &mut [u8], bytes: &mut [u8]) -> Result<Contents, RequestFault>
        requires level { length working.old ≡ length bytes.old }
        requires low { length bytes.old ≤ 65536 }
        ensures cleared { working.new ≡ replicate (length working.old) 0 }
        ensures refused { OnErr result (bytes.new ≡ bytes.old) }
        ensures accepted { IfOk result (λ c. Replaced bytes.new c.length) }
    {
        let mut out = Working::new(working);
        let extents = self.write(&mut out)?;
        let written = out.written();
        let length = written.len();
        replace(bytes, written);
        Ok(Contents { extents, length })
    }
}

impl<'a, 's, 'o, R: ScalarRule> Sheet<'a, 's, 'o, R> {
    // An empty sheet that can hold as many bytes as the capacity says.
    pub fn new(
        heap: Global,
        schema: &'a Schema<'s>,
        operation: &'a Operation<'o>,
        rule: R,
        capacity: usize,
    ) -> Result<Sheet<'a, 's, 'o, R>, RequestFault>
    where
        R: Drop,
        ensures made { IfOk result (λ s. (capacity ≤ 65536) × (vec_len s.bytes ≡ capacity) × (s.contents ≡ None)) }
        ensures above { 65536 < capacity → result ≡ Err (Value (NoSpace (record { place = 0; variable = None; field = None }))) }
    {
        if capacity > GREATEST_CAPACITY {
            return Err(RequestFault::Value(ValueFault::NoSpace(Spot::default())));
        }
        let bytes = vec![in heap; 0u8; capacity]?;
        let working = vec![in heap; 0u8; capacity]?;
        Ok(Sheet {
            schema,
            operation,
            rule,
            bytes,
            working,
            contents: None,
        })
    }

    // The names and records of the variables that have a value.
    pub fn bytes(&self) -> &[u8]
        ensures { result.now ≡ take (taken self.now.contents) self.now.bytes.items }
    {
        let length = self.contents.as_ref().map_or(0, |contents| contents.length);
        &self.bytes.as_slice()[..length]
    }

    // Reads a JSON text, and loads the values that it writes.
    pub fn load_json(&mut self, heap: Global, text: &[u8]) -> Result<usize, RequestFault>
        ensures { Loaded self.old self.new result }
    {
        let json: JsonText<'_> = read(heap, text)?;
        self.load(&json.value())
    }

    // Replaces what the sheet holds by the values of a request, and tells how many bytes they take.
    pub fn load<S: Source>(&mut self, source: &S) -> Result<usize, RequestFault>
        ensures { Loaded self.old self.new result }
    {
        let request = Request {
            schema: self.schema,
            operation: self.operation,
            rule: &self.rule,
            source,
            object: object(source)?,
        };
        let contents = request.fill(self.working.as_mut_slice(), self.bytes.as_mut_slice())?;
        self.contents = Some(contents);
        Ok(contents.length)
    }
}
