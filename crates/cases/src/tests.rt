// Texts that are cut short, and sheets that are damaged.
use crate::answer::value_of;
use crate::table::Reading;
use std::alloc::{AllocError, Global};

// Whether each shorter text is refused as bad text, no later than at its end.
fn cuts_are_bad(heap: Global, reading: Reading, text: &[u8]) -> bool {
    (0..text.len()).all(|len| {
        let cut = &text[..len];
        value_of(heap, reading, cut)
            .err()
            .is_some_and(|fault| fault.number() == Some(1) && fault.place() <= len)
    })
}

// Whether a sheet is refused at one of its places, or reads as another value than that which is shown.
fn differs(heap: Global, sheet: &[u8], shown: &str) -> bool {
    match value_of(heap, Reading::Sheet, sheet) {
        Ok(other) => other.as_str() != shown,
        Err(fault) => fault.number().is_some() && fault.place() <= sheet.len(),
    }
}

// Whether the sheet differs with any other byte at the place.
fn damage_is_found(
    heap: Global,
    sheet: &[u8],
    shown: &str,
    at: usize,
    right: u8,
) -> Result<bool, AllocError> {
    let mut damaged = sheet.to_vec(heap)?;
    for wrong in 0..=255 {
        if let Some(byte) = damaged.get_mut(at) {
            *byte = wrong;
        }
        if wrong != right && !differs(heap, damaged.as_slice(), shown) {
            return Ok(false);
        }
    }
    Ok(true)
}

// Whether the sheet differs with any other byte at any place.
fn damages_are_found(heap: Global, sheet: &[u8]) -> Result<bool, AllocError> {
    let Ok(shown) = value_of(heap, Reading::Sheet, sheet) else {
        return Ok(false);
    };
    for (at, right) in sheet.iter().enumerate() {
        if !damage_is_found(heap, sheet, shown.as_str(), at, *right)? {
            return Ok(false);
        }
    }
    Ok(true)
}

#[test]
fn texts_cut_short(rt: HostRuntime) {
    let heap = rt.alloc();
    assert!(rt;
        cuts_are_bad(
            heap,
            Reading::Json,
            b"{\"a\": [1.5, -2e3, \"b\\n\\ud83d\\ude00\", true, false, null], \"c\": {\"\": {}}}",
        )
    );
    assert!(rt;
        cuts_are_bad(
            heap,
            Reading::Literal,
            b"{a: [1.5 -2e3 \"b\\n\\ud83d\\ude00\" true RED $v], # c\n c: {_: {}}}",
        )
    );
    assert!(rt; cuts_are_bad(heap, Reading::Json, b"\"a\\\\\\\"\""));
}

#[test]
fn damaged_sheets(rt: HostRuntime) {
    let heap = rt.alloc();
    // The worked order: n is 7, t is [2e0].
    assert_eq!(rt;
        damages_are_found(
            heap,
            b"\x01\0\0\0\x08\0n\x01\0\0\0\x03\07\x01\0\0\0\x08\0t\x0c\0\0\0\x06\0\x06\0\0\0\x04\0\0\0\0\0\02",
        ),
        Ok(true)
    );
    // a is {b: true, c: "x"}, and d is null.
    assert_eq!(rt;
        damages_are_found(
            heap,
            b"\x01\0\0\0\x08\0a\x1c\0\0\0\x07\0\x01\0\0\0\x08\0b\x01\0\0\0\x02\0\x01\x01\0\0\0\x08\0c\x01\0\0\0\x05\0x\x01\0\0\0\x08\0d\0\0\0\0\x01\0",
        ),
        Ok(true)
    );
}
