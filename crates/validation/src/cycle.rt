// The test of default cycles: no input field leads back to itself by the coercion of its default.
ghost use Rattle.std.specs.Prelude.{◌≡◌, ℕ, ◌-◌, ◌<◌, ◌≤◌, IfOk, IfSome, length, vec_len};
ghost use Rattle.model.specs.Values.{Mems, object};
ghost use Rattle.model.specs.Coercion.{member};
ghost use Rattle.source.specs.Standing.{Found};
ghost use Rattle.schema.specs.Documents.{Document};
ghost use Rattle.schema.specs.Holds.{Holds};
ghost use Rattle.validation.specs.Making.{FirstFault, CycleAt, NamesApart, Sourced};
ghost use Rattle.validation.specs.Lacking.{ValueTold, ItemsTold, ObjectTold, FieldTold, CyclesBefore};

use crate::place;
use crate::variables::item;
use reader::literal::Literal;
use relation::{MOST, Relation};
use schema::definition::Schema;
use schema::types::{Base, Type};
use source::raw::{Kind, Source};
use std::alloc::{AllocError, Global};

// Where the first input field is named that leads back to itself.
pub fn default_cycle(heap: Global, schema: &Schema<'_>) -> Result<Option<usize>, AllocError>
    requires { vec_len schema.now.fields ≤ MOST }
    ensures { (D : Document) → Holds schema.now D → NamesApart D → Sourced D → IfOk result (FirstFault (CycleAt D)) }
{
    let mut leads = Relation::new(heap, schema.fields.len())?;
    for row in 0..schema.fields.len() {
        let field = &schema.fields[row];
        if let Some(cursor) = field.default {
            let source = Literal::new(&schema.tree, cursor);
            let default = FieldDefault {
                source: &source,
                schema,
                row,
            };
            default.value(source.root(), field.ty, &mut leads);
        }
    }
    leads.close();
    Ok(first_cycle(schema, &leads))
}

// The first name of a field that leads to itself.
fn first_cycle(schema: &Schema<'_>, leads: &Relation) -> Option<usize>
    requires few { vec_len schema.now.fields ≤ MOST }
    requires rows { vec_len leads.now.rows ≡ vec_len schema.now.fields }
    ensures { FirstFault (CyclesBefore leads.now.rows.items schema.now.fields.items (length schema.now.fields.items)) result }
{
    let mut first = None;
    for row in 0..schema.fields.len() {
        if leads.leads(row, row) {
            first = place::lesser(first, Some(schema.fields[row].place));
        }
    }
    first
}

// The default of the field of a row.
#[derive_where(Clone, Copy)]
struct FieldDefault<'c, 's, S> {
    source: &'c S,
    schema: &'c Schema<'s>,
    row: usize,
}

impl<S: Source> FieldDefault<'_, '_, S> {
    // The field leads to all that the value at the cursor lacks.
    #[cycle(lacking)]
    fn value(&self, at: usize, ty: Type<'_>, leads: &mut Relation)
        requires few { vec_len self.now.schema.now.fields ≤ MOST }
        requires row { self.now.row < vec_len self.now.schema.now.fields }
        requires rows { vec_len leads.now.rows ≡ vec_len self.now.schema.now.fields }
        ensures rows { vec_len leads.new.rows ≡ vec_len leads.old.rows }
        ensures told { ValueTold (S.stands self.now.source.now) self.now.row self.now.schema.now at ty.entry leads.old.rows.items leads.new.rows.items }
    {
        match self.source.kind(at) {
            Kind::List => {
                if ty.shape.is_list() {
                    self.items(at, item(ty), leads);
                }
            }
            Kind::Object => {
                if let Base::Input(index) = ty.shape.base {
                    self.object(at, index, leads);
                }
            }
            _ => {}
        }
    }

    // To all that the items of a list lack.
    #[cycle(lacking)]
    fn items(&self, at: usize, ty: Type<'_>, leads: &mut Relation)
        requires few { vec_len self.now.schema.now.fields ≤ MOST }
        requires row { self.now.row < vec_len self.now.schema.now.fields }
        requires rows { vec_len leads.now.rows ≡ vec_len self.now.schema.now.fields }
        ensures rows { vec_len leads.new.rows ≡ vec_len leads.old.rows }
        ensures told { ItemsTold (S.stands self.now.source.now) self.now.row self.now.schema.now at ty.entry leads.old.rows.items leads.new.rows.items }
    {
        for at in self.source.values(at) {
            self.value(at, ty, leads);
        }
    }

    // To all that an object of an input type lacks.
    #[cycle(lacking)]
    fn object(&self, at: usize, index: usize, leads: &mut Relation)
        requires few { vec_len self.now.schema.now.fields ≤ MOST }
        requires row { self.now.row < vec_len self.now.schema.now.fields }
        requires rows { vec_len leads.now.rows ≡ vec_len self.now.schema.now.fields }
        ensures rows { vec_len leads.new.rows ≡ vec_len leads.old.rows }
        ensures told { ObjectTold (S.stands self.now.source.now) self.now.row self.now.schema.now at index leads.old.rows.items leads.new.rows.items }
    {
        let Some(ty) = self.schema.types.get(index) else {
            return;
        };
        for row in ty.inside.from..ty.inside.to {
            self.field(at, row, leads);
        }
    }

    // To a field of the object that is not there and has a default, or to all that its member lacks.
    #[cycle(lacking)]
    fn field(&self, at: usize, row: usize, leads: &mut Relation)
        requires few { vec_len self.now.schema.now.fields ≤ MOST }
        requires row { self.now.row < vec_len self.now.schema.now.fields }
        requires rows { vec_len leads.now.rows ≡ vec_len self.now.schema.now.fields }
        ensures rows { vec_len leads.new.rows ≡ vec_len leads.old.rows }
        ensures told { FieldTold (S.stands self.now.source.now) self.now.row self.now.schema.now at row leads.old.rows.items leads.new.rows.items }
    {
        let Some(field) = self.schema.fields.get(row) else {
            return;
        };
        match self.member(at, field.name) {
            Some(member) => self.value(member, field.ty, leads),
            None if field.default.is_some() => leads.add(self.row, row),
            None => {}
        }
    }

    // The member with the name. The source's own does not tell that it lies inside the object.
    fn member(&self, at: usize, name: &[u8]) -> Option<usize>
        ensures found { (p : ℕ) (ms : Mems) → S.stands self.now.source.now at (object p ms) → Found (S.stands self.now.source.now) (member ms name.now) result }
        ensures inside { IfSome result (λ c. S.past self.now.source.now c - c < S.past self.now.source.now at - at) }
    {
        for member in self.source.values(at) {
            if self.source.name(member) == name {
                return Some(member);
            }
        }
        None
    }
}
