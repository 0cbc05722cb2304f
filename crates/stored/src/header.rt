// Records and their headers: the length of the body in four bytes and the kind in two, little-endian.
ghost use Rattle.std.specs.Prelude.{◌≡◌, ◌+◌, ◌^◌, ◌<◌, length, Decides};

use record::kind::{HEADER, RecordKind};

// A record: the number of its kind, which need not be that of a kind, where its body starts, and the body.
#[derive(Clone, Copy, Debug)]
pub struct Record<'a> {
    pub kind: u8,
    pub from: usize,
    pub body: &'a [u8],
    ghost fits: { from + length body.now < 2 ^ 64 },
}

impl<'a> Record<'a> {
    ghost use Rattle.stored.specs.Frames.{end_of, RecordTold, ValuedTold};

    // The record at `at`, if it ends no later than `to` and the number of its kind is below 256.
    pub fn at(bytes: &'a [u8], at: usize, to: usize) -> Option<Record<'a>>
        ensures { RecordTold bytes.now at to result }
    {
        let to = to.min(bytes.len());
        let [a, b, c, d, kind, 0, rest @ ..] = bytes.get(at..to)? else {
            return None;
        };
        let size = u32::from_le_bytes([*a, *b, *c, *d]) as usize;
        if size > rest.len() {
            return None;
        }
        let from = at + HEADER;
        let end = from + size;
        Some(Record {
            kind: *kind,
            from,
            body: &bytes[from..end],
        })
    }

    // The record of the value of what starts at `at`, an item or a member with its name: its place, and itself.
    pub fn valued(bytes: &'a [u8], at: usize, to: usize) -> Option<(usize, Record<'a>)>
        ensures { ValuedTold bytes.now at to result }
    {
        let first = Record::at(bytes, at, to)?;
        if !first.is_name() {
            return Some((at, first));
        }
        let next = first.end();
        let second = Record::at(bytes, next, to)?;
        Some((next, second))
    }

    // Where it ends.
    pub fn end(self) -> usize
        ensures { result ≡ end_of self.entry }
    {
        self.from + self.body.len()
    }

    // Whether it is a member's name.
    pub fn is_name(self) -> bool
        ensures { Decides result (self.entry.kind ≡ 8) }
    {
        self.kind == u8::from(RecordKind::Name)
    }
}
