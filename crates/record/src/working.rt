// The bytes that a call works in, and the records that are written into them.
ghost use Rattle.std.specs.Prelude.{◌≡◌, ℕ, ◌+◌, ◌-◌, ◌^◌, ◌<◌, ◌≤◌, min, [], ◌∷◌, ◌++◌, length, replicate, MatchOption};
ghost use Rattle.record.specs.Kinds.{number_of};
ghost use Rattle.record.specs.Records.{kind_of, opened, scale as scale_bytes, header, named, patched};

use crate::body::Body;
use crate::kind::{HEADER, RecordKind};
use text::decimal::Scale;

// Working bytes, of which the first `used` are written. They are cleared on every way out.
// They are lent and not a vector, so that a load allocates nothing.
pub struct Working<'a> {
    pub bytes: &'a mut [u8],
    pub used: usize,
}

impl Drop for Working<'_> {
    fn drop(self)
        ensures { self.exit.0.now ≡ replicate (length self.entry.bytes.now) 0 }
    {
        // Each field is named, since `..` would move `bytes` out of a value that has a `drop`.
        let Working { bytes, used: _ } = self;
        bytes.fill(0);
    }
}

// How many bytes the record of a member's name has, if there is one.
fn name_size(name: Option<&[u8]>) -> usize
    ensures { result ≡ min (length (named name.entry)) (2 ^ 64 - 1) }
{
    name.map_or(0, |name| name.len().saturating_add(HEADER))
}

impl<'a> Working<'a> {
    ghost use Rattle.record.specs.Held.{written, size, Kept, Wrote, Begun, NoRoom};

    // Bytes of which none are written yet.
    pub fn new(bytes: &'a mut [u8]) -> Working<'a>
        ensures same { result.bytes.ghost_name ≡ bytes.entry.ghost_name }
        ensures bytes { result.bytes.now ≡ bytes.old }
        ensures used { result.used ≡ 0 }
    {
        Working { bytes, used: 0 }
    }

    // The bytes that are written. Whoever sets `used` past the bytes' end has written them all.
    pub fn written(&self) -> &[u8]
        ensures { result.now ≡ written self.now }
    {
        &self.bytes[..self.used.min(self.bytes.len())]
    }

    // Writes `more` after what is written.
    fn put(&mut self, more: &[u8])
        requires { self.old.used + length more.now ≤ size self.old }
        ensures { Wrote self.old self.new more.now }
    {
        let start = self.used;
        let end = start + more.len();
        self.bytes[start..end].copy_from_slice(more);
        self.used = end;
    }

    // Writes a header.
    fn put_header(&mut self, count: usize, kind: RecordKind)
        requires room { self.old.used + 6 ≤ size self.old }
        requires short { count < 2 ^ 32 }
        ensures { Wrote self.old self.new (header count (number_of kind)) }
    {
        // `as` loses nothing: the count is below 2^32.
        let [a, b, c, d] = (count as u32).to_le_bytes();
        self.put(&[a, b, c, d, u8::from(kind), 0]);
    }

    // Writes the record of a member's name, if there is one.
    fn put_name(&mut self, name: Option<&[u8]>)
        requires room { self.old.used + length (named name) ≤ size self.old }
        requires short { size self.old < 2 ^ 32 }
        ensures { Wrote self.old self.new (named name.entry) }
    {
        if let Some(name) = name {
            self.put_header(name.len(), RecordKind::Name);
            self.put(name);
        }
    }

    // Writes the sign and the exponent of a decimal.
    fn put_scale(&mut self, scale: Scale)
        requires { self.old.used + 5 ≤ size self.old }
        ensures { Wrote self.old self.new (scale_bytes scale) }
    {
        let [a, b, c, d] = scale.exponent.to_le_bytes();
        self.put(&[u8::from(scale.negative), a, b, c, d]);
    }

    // Writes a body as it is opened.
    fn put_body(&mut self, body: Body<'_>)
        requires { self.old.used + length (opened body) ≤ size self.old }
        ensures { Wrote self.old self.new (opened body.entry) }
    {
        match body {
            Body::Null | Body::List | Body::Object => {}
            Body::Boolean(value) => self.put(&[u8::from(value)]),
            Body::Whole(text) | Body::String(text) => self.put(text),
            Body::Decimal { scale, digits } => {
                self.put_scale(scale);
                self.put(digits);
            }
        }
    }

    // The bounds are asked here and not in the type, which would ask them of all who make working bytes.
    // Opens a record, with the name before it if there is one, and tells where it starts; where there is no room for all of it, nothing is written.
    pub fn begin(&mut self, name: Option<&[u8]>, body: Body<'_>) -> Option<usize>
        requires inside { self.old.used ≤ size self.old }
        requires short { size self.old < 2 ^ 32 }
        ensures opened { MatchOption result (NoRoom self.old self.new name.entry body.entry) (λ start. Begun self.old self.new name.entry body.entry start) }
        ensures kept { Kept self.old self.new }
    {
        let count = body.size();
        let whole = name_size(name).saturating_add(HEADER).saturating_add(count);
        if self.bytes.len() - self.used < whole {
            return None;
        }
        self.put_name(name);
        let start = self.used;
        self.put_header(count, body.kind());
        self.put_body(body);
        Some(start)
    }

    // Writes the size of the body into the header at `start` of the record that reaches to the end.
    pub fn finish(&mut self, start: usize)
        requires inside { self.old.used ≤ size self.old }
        requires within { start + 6 ≤ self.old.used }
        requires short { size self.old < 2 ^ 32 }
        ensures items { written self.new ≡ patched start (written self.old) }
        ensures kept { Kept self.old self.new }
        ensures used { self.new.used ≡ self.old.used }
    {
        let count = (self.used - (start + HEADER)) as u32;
        let end = start + 4;
        self.bytes[start..end].copy_from_slice(&count.to_le_bytes());
    }
}
