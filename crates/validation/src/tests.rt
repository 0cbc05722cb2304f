// What is refused, by number and place.
use crate::fault::MakeFault;
use crate::{make_operation, make_schema};
use reader::document::{JsonText, LiteralText, read};
use std::alloc::Global;
use text::fault::Fault;

// The number of a refusal, 0 for want of memory, and its place.
fn refusal<T: Drop>(made: Result<T, MakeFault>) -> Option<(u8, usize)> {
    made.err()
        .map(|fault| (fault.number().unwrap_or(0), fault.place()))
}

fn schema_refusal(heap: Global, text: &[u8]) -> Option<(u8, usize)> {
    refusal(make_schema(heap, text))
}

// Of an operation over a schema with one scalar, X.
fn operation_refusal(heap: Global, text: &[u8]) -> Option<(u8, usize)> {
    match make_schema(heap, b"scalar X") {
        Ok(schema) => refusal(make_operation(heap, &schema, text)),
        Err(fault) => refusal::<()>(Err(fault)),
    }
}

#[test]
fn schemas(rt: HostRuntime) {
    let heap = rt.alloc();
    assert_eq!(rt; schema_refusal(heap, b""), None);
    assert_eq!(rt; schema_refusal(heap, b"scalar A scalar B"), None);
    assert_eq!(rt; schema_refusal(heap, b"scalar A scalar A"), Some((4, 16)));
    assert_eq!(rt;
        schema_refusal(heap, b"scalar A scalar A scalar"),
        Some((1, 24))
    );
    assert_eq!(rt; schema_refusal(heap, b"scalar Int"), Some((4, 7)));
}

#[test]
fn types_and_names(rt: HostRuntime) {
    let heap = rt.alloc();
    assert_eq!(rt;
        operation_refusal(heap, b"query ($a: [[[[[[[[X]]]]]]]])"),
        None
    );
    assert_eq!(rt;
        operation_refusal(heap, b"query ($a: [[[[[[[[[X]]]]]]]]])"),
        Some((2, 19))
    );
    assert_eq!(rt; operation_refusal(heap, b"query ()"), Some((1, 7)));
    assert_eq!(rt; operation_refusal(heap, b"query ($a: Y)"), Some((6, 11)));
    assert_eq!(rt;
        operation_refusal(heap, b"query ($a: X, $a: X)"),
        Some((4, 15))
    );
    assert_eq!(rt;
        operation_refusal(heap, b"query ($a: X = {a: 1, b: 2, a: 3} $a: X)"),
        Some((4, 28))
    );
}

#[test]
fn bad_defaults(rt: HostRuntime) {
    let heap = rt.alloc();
    assert_eq!(rt;
        operation_refusal(heap, b"query ($a: Int = 2147483647)"),
        None
    );
    assert_eq!(rt;
        operation_refusal(heap, b"query ($a: Int = 2147483648)"),
        Some((8, 17))
    );
    assert_eq!(rt;
        operation_refusal(heap, b"query ($a: [Int!] = [1, null])"),
        Some((8, 20))
    );
    assert_eq!(rt; operation_refusal(heap, b"query ($a: [[Int]] = 1)"), None);
    assert_eq!(rt;
        operation_refusal(heap, b"query ($a: X = {b: [$c]})"),
        Some((8, 15))
    );
}

fn json_refusal(heap: Global, text: &[u8]) -> Option<(u8, usize)> {
    let made: Result<JsonText<'_>, Fault> = read(heap, text);
    refusal(made.map_err(MakeFault::Text))
}

#[test]
fn json_members_and_ends(rt: HostRuntime) {
    let heap = rt.alloc();
    assert_eq!(rt;
        json_refusal(heap, b"{\"a\": {\"a\": 1}, \"b\": [2]}"),
        None
    );
    assert_eq!(rt;
        json_refusal(heap, b"{\"a\":1,\"\\u0061\":2}"),
        Some((4, 7))
    );
    assert_eq!(rt; json_refusal(heap, b"{\"a\":1,}"), Some((1, 7)));
    assert_eq!(rt; json_refusal(heap, b"[1,]"), Some((1, 3)));
    assert_eq!(rt; json_refusal(heap, b"[1"), Some((1, 2)));
    assert_eq!(rt; json_refusal(heap, b"1 2"), Some((1, 2)));
}

fn literal_refusal(heap: Global, text: &[u8]) -> Option<(u8, usize)> {
    let made: Result<LiteralText<'_>, Fault> = read(heap, text);
    refusal(made.map_err(MakeFault::Text))
}

#[test]
fn literal_members_and_ends(rt: HostRuntime) {
    let heap = rt.alloc();
    assert_eq!(rt;
        literal_refusal(heap, b"{a: {a: 1} b: [$c RED 2.5], }"),
        None
    );
    assert_eq!(rt; literal_refusal(heap, b"{a: 1 a: 2}"), Some((4, 6)));
    assert_eq!(rt; literal_refusal(heap, b"[1 2"), Some((1, 4)));
    assert_eq!(rt; literal_refusal(heap, b"1 2"), Some((1, 2)));
    assert_eq!(rt; literal_refusal(heap, b"[01]"), Some((1, 1)));
    assert_eq!(rt; literal_refusal(heap, b"\"\"\"a\"\"\""), Some((1, 0)));
}

#[test]
fn json_depth(rt: HostRuntime) {
    let heap = rt.alloc();
    assert_eq!(rt;
        json_refusal(
            heap,
            b"[[[[[[[[[[[[[[[[[[[[[[[[[[[[[[[[[]]]]]]]]]]]]]]]]]]]]]]]]]]]]]]]]]",
        ),
        None
    );
    assert_eq!(rt;
        json_refusal(
            heap,
            b"[[[[[[[[[[[[[[[[[[[[[[[[[[[[[[[[1]]]]]]]]]]]]]]]]]]]]]]]]]]]]]]]]",
        ),
        None
    );
    assert_eq!(rt;
        json_refusal(
            heap,
            b"[[[[[[[[[[[[[[[[[[[[[[[[[[[[[[[[[1]]]]]]]]]]]]]]]]]]]]]]]]]]]]]]]]]",
        ),
        Some((2, 33))
    );
    assert_eq!(rt;
        json_refusal(
            heap,
            b"[[[[[[[[[[[[[[[[[[[[[[[[[[[[[[[[[,]]]]]]]]]]]]]]]]]]]]]]]]]]]]]]]]]",
        ),
        Some((1, 33))
    );
}
