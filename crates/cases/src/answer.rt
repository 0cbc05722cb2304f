// The answers to cases.
use crate::table::{Asked, Case, Reading};
use crate::value;
use coercion::rule::AcceptAll;
use reader::document::{JsonText, LiteralText, read};
use schema::definition::Schema;
use schema::layer::Layer;
use schema::operation::Operation;
use sheet::fault::RequestFault;
use sheet::held::Sheet;
use source::limits::DEEPEST;
use source::raw::Source;
use std::alloc::{AllocError, Global};
use stored::stored::read_stored;
use text::fault::Fault;
use validation::fault::MakeFault;
use validation::{make_operation, make_schema};

// Bytes as characters, each as the one of its number.
pub(crate) fn characters(heap: Global, bytes: &[u8]) -> Result<String, AllocError> {
    bytes.iter().copied().map(char::from).collect(heap)
}

// A refusal: its number, 0 for want of memory, its layer and its place.
fn refusal(
    heap: Global,
    number: Option<u8>,
    layer: Layer,
    place: usize,
) -> Result<String, AllocError> {
    let number = number.unwrap_or(0);
    format!(in heap; "refused {number} {layer} {place}")
}

// A refused request, with the names of the variable and the field if they are told.
fn request_refusal(
    heap: Global,
    schema: &Schema<'_>,
    operation: &Operation<'_>,
    fault: RequestFault,
) -> Result<String, AllocError> {
    let spot = fault.spot();
    let mut said = refusal(heap, fault.number(), fault.layer(), spot.place)?;
    if let Some(variable) = spot.variable.and_then(|index| operation.variable(index)) {
        let name = characters(heap, variable.name)?;
        said = format!(in heap; "{said} variable {name}")?;
    }
    if let Some(field) = spot.field.and_then(|index| schema.field(index)) {
        let name = characters(heap, field.name)?;
        said = format!(in heap; "{said} field {name}")?;
    }
    Ok(said)
}

// The sheet of a request, in hexadecimal.
fn load(
    heap: Global,
    schema: &Schema<'_>,
    operation: &Operation<'_>,
    case: &Case,
) -> Result<String, RequestFault> {
    let mut sheet = Sheet::new(heap, schema, operation, AcceptAll, case.capacity)?;
    let text = case.variables.as_slice();
    match case.reading {
        Reading::Json => sheet.load_json(heap, text)?,
        Reading::Literal => {
            let read: LiteralText<'_> = read(heap, text)?;
            sheet.load(&read.value())?
        }
        Reading::Sheet => sheet.load(&read_stored(heap, text)?)?,
    };
    Ok(hex::encode(heap, sheet.bytes())?)
}

// What the request comes to, unless its schema or its operation is refused.
fn request(heap: Global, case: &Case) -> Result<Result<String, AllocError>, MakeFault> {
    let schema = make_schema(heap, case.schema.as_slice())?;
    let operation = make_operation(heap, &schema, case.operation.as_slice())?;
    Ok(match load(heap, &schema, &operation, case) {
        Ok(digits) if digits.is_empty() => String::from_str(heap, "ok"),
        Ok(digits) => format!(in heap; "ok {digits}"),
        Err(fault) => request_refusal(heap, &schema, &operation, fault),
    })
}

// What the request comes to.
fn outcome(heap: Global, case: &Case) -> Result<String, AllocError> {
    match request(heap, case) {
        Ok(said) => said,
        Err(fault) => refusal(heap, fault.number(), fault.layer(), fault.place()),
    }
}

// The value of a source, as a line shows it.
fn shown<S: Source>(heap: Global, source: &S) -> Result<String, Fault> {
    let mut out = String::from_str(heap, "ok ")?;
    value::add(source, source.root(), DEEPEST + 1, &mut out)?;
    Ok(out)
}

// What a text is, read so.
pub(crate) fn value_of(heap: Global, reading: Reading, text: &[u8]) -> Result<String, Fault> {
    match reading {
        Reading::Json => {
            let read: JsonText<'_> = read(heap, text)?;
            shown(heap, &read.value())
        }
        Reading::Literal => {
            let read: LiteralText<'_> = read(heap, text)?;
            shown(heap, &read.value())
        }
        Reading::Sheet => shown(heap, &read_stored(heap, text)?),
    }
}

// What the case comes to.
pub(crate) fn answer(heap: Global, asked: &Asked) -> Result<String, AllocError> {
    match asked {
        Asked::Request(case) => outcome(heap, case),
        Asked::Text(reading, text) => match value_of(heap, *reading, text.as_slice()) {
            Ok(said) => Ok(said),
            Err(fault) => refusal(heap, fault.number(), Layer::Text, fault.place()),
        },
    }
}
