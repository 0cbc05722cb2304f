// What a check of literals finds, by number and place.
use crate::diagnostic::{Diagnostic, DiagnosticKind};
use crate::diagnostics::Diagnostics;
use crate::literal::{InputLocation, LiteralCheck};
use crate::variables::Variables;
use crate::{make_operation, make_schema};
use lookup::Table;
use schema::definition::Schema;
use schema::operation::Operation;
use std::alloc::Global;

const SCHEMA: &[u8] =
    b"scalar X enum E {R G} input A {i: Int! f: Float = 1 a: A e: [E!]} directive @d(a: A, f: Float, i: Int = 1, n: Int!, s: String, x: X, l: [Int!], b: Boolean, y: ID) on QUERY";

const NOTHING: Diagnostic = Diagnostic {
    kind: DiagnosticKind::UnsupportedValueType,
    place: 0,
};

// The total, and the numbers and places of the first three.
type Found = (usize, [(u8, usize); 3]);

fn told(diagnostic: Diagnostic) -> (u8, usize) {
    (diagnostic.kind.number(), diagnostic.place)
}

// Of an operation's first argument, at the argument of the directive with that index.
fn checked(schema: &Schema<'_>, operation: &Operation<'_>, index: usize) -> Option<Found> {
    let argument = operation.arguments.first()?;
    let declared = schema.arguments.get(index)?;
    let source = operation.literal(argument.value);
    let names = Table::new(operation.variables.as_slice());
    let variables = Variables::new(operation.variables.as_slice(), &names, &operation.tree);
    let check = LiteralCheck::new(&source, schema, variables);
    let location = InputLocation {
        ty: declared.ty,
        has_default: declared.default.is_some(),
        place: argument.place,
    };
    let mut place = [NOTHING; 3];
    let mut found = Diagnostics::new(&mut place);
    check.check(argument.value, location, &mut found);
    let total = found.total;
    let [a, b, c] = place;
    Some((total, [told(a), told(b), told(c)]))
}

fn found(heap: Global, text: &[u8], index: usize) -> Option<Found> {
    let schema = make_schema(heap, SCHEMA).ok()?;
    let operation = make_operation(heap, &schema, text).ok()?;
    checked(&schema, &operation, index)
}

// Nothing, or one.
fn none() -> Option<Found> {
    Some((0, [(108, 0), (108, 0), (108, 0)]))
}

fn one(number: u8, place: usize) -> Option<Found> {
    Some((1, [(number, place), (108, 0), (108, 0)]))
}

#[test]
fn scalars(rt: HostRuntime) {
    let heap = rt.alloc();
    assert_eq!(rt; found(heap, b"query @d(i: 2147483647)", 2), none());
    assert_eq!(rt; found(heap, b"query @d(i: 2147483648)", 2), one(109, 12));
    assert_eq!(rt; found(heap, b"query @d(i: -2147483648)", 2), none());
    assert_eq!(rt; found(heap, b"query @d(i: 1.0)", 2), one(108, 12));
    assert_eq!(rt; found(heap, b"query @d(f: 9007199254740993)", 1), none());
    assert_eq!(rt; found(heap, b"query @d(f: 1e309)", 1), one(110, 12));
    assert_eq!(rt; found(heap, b"query @d(s: 1)", 4), one(108, 12));
    assert_eq!(rt; found(heap, b"query @d(b: true)", 7), none());
    assert_eq!(rt; found(heap, b"query @d(y: 1)", 8), none());
    assert_eq!(rt; found(heap, b"query @d(y: 1.5)", 8), one(108, 12));
    assert_eq!(rt; found(heap, b"query @d(n: null)", 3), one(108, 12));
}

#[test]
fn variables(rt: HostRuntime) {
    let heap = rt.alloc();
    assert_eq!(rt; found(heap, b"query ($v: Int!) @d(i: $v)", 2), none());
    assert_eq!(rt; found(heap, b"query ($v: Int) @d(i: $w)", 2), one(111, 22));
    assert_eq!(rt; found(heap, b"query ($v: ID) @d(i: $v)", 2), one(105, 18));
    assert_eq!(rt; found(heap, b"query ($v: Int) @d(n: $v)", 3), one(105, 19));
    assert_eq!(rt; found(heap, b"query ($v: Int = 1) @d(n: $v)", 3), none());
    assert_eq!(rt;
        found(heap, b"query ($v: Int = null) @d(n: $v)", 3),
        one(105, 26)
    );
    assert_eq!(rt; found(heap, b"query ($v: Int) @d(l: $v)", 6), one(105, 19));
    assert_eq!(rt;
        found(heap, b"query ($v: Int) @d(l: [$v])", 6),
        one(105, 23)
    );
    assert_eq!(rt; found(heap, b"query ($v: [Int!]!) @d(l: $v)", 6), none());
    assert_eq!(rt;
        found(heap, b"query ($v: Int) @d(x: [{a: $v, b: $w}])", 5),
        one(111, 34)
    );
}

#[test]
fn objects(rt: HostRuntime) {
    let heap = rt.alloc();
    assert_eq!(rt; found(heap, b"query @d(a: {i: 1})", 0), none());
    assert_eq!(rt; found(heap, b"query @d(a: {})", 0), one(114, 12));
    assert_eq!(rt; found(heap, b"query @d(a: [])", 0), one(108, 12));
    assert_eq!(rt;
        found(heap, b"query @d(a: {i: 1, j: {k: $u}, k: 2})", 0),
        one(113, 22)
    );
    assert_eq!(rt;
        found(heap, b"query @d(a: {i: 1, e: [R, B]})", 0),
        one(112, 26)
    );
    assert_eq!(rt; found(heap, b"query @d(a: {i: 1, e: G})", 0), none());
    assert_eq!(rt;
        found(heap, b"query @d(a: {i: 1, e: \"R\"})", 0),
        one(108, 22)
    );
}

#[test]
fn orders(rt: HostRuntime) {
    let heap = rt.alloc();
    // An explicit null at a required field is told twice.
    assert_eq!(rt;
        found(heap, b"query @d(a: {i: null})", 0),
        Some((2, [(114, 12), (108, 16), (108, 0)]))
    );
    // The undeclared member first, then the fields in the order of their definition; the place keeps the first three.
    assert_eq!(rt;
        found(
            heap,
            b"query @d(a: {e: [null], f: $w, g: 1, a: {f: 1e999}})",
            0
        ),
        Some((6, [(113, 34), (114, 12), (111, 27)]))
    );
}
