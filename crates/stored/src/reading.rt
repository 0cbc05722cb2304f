// Records read one after another, and checked against their format and its limits.
ghost use Rattle.std.specs.Prelude.{◌≤◌, [], length};
ghost use Rattle.names.specs.Index.{Sound};
ghost use Rattle.stored.specs.Told.{HoldsTold, ValueTold, ItemsTold, MembersTold, NameTold};

use crate::content::{Content, name_form};
use crate::header::Record;
use names::names::Names;
use names::part::{Holder, Part};
use text::fault::Fault;

// The record at `at`, which ends no later than `to`, and what it holds.
fn content_at(bytes: &[u8], at: usize, to: usize) -> Result<(Record<'_>, Content), Fault>
    ensures { HoldsTold bytes.now at to result }
{
    let record = Record::at(bytes, at, to).ok_or(Fault::BadText(at))?;
    let content = record.content().map_err(|error| error.at(at))?;
    Ok((record, content))
}

// The bytes of a sheet, and the names of the members that are being read.
// The crate `reader` has a `Reader` of texts; neither is seen outside its crate.
#[derive(Drop)]
pub(crate) struct Reader<'a> {
    pub bytes: &'a [u8],
    pub names: Names,
}

impl Reader<'_> {
    // The value whose record stands at `at` and ends no later than `to`, with `levels` left for it and what is
    // inside it: where it ends.
    #[cycle(items_members_value)]
    fn value(&mut self, at: usize, to: usize, levels: usize) -> Result<usize, Fault>
        ensures { ValueTold self.old levels at to self.new result }
    {
        let (record, content) = content_at(self.bytes, at, to)?;
        let end = record.end();
        if levels == 0 {
            return Err(Fault::TooDeep(at));
        }
        match content {
            Content::Leaf => {}
            Content::List => self.items(record.from, end, levels - 1)?,
            Content::Object => self.members(record.from, end, levels - 1)?,
        }
        Ok(end)
    }

    // The items of a list from `from` to `to`. `next` moves by what was read and `to` stays:
    // a `Span` would be taken apart and made again at each record.
    #[cycle(items_members_value)]
    fn items(&mut self, from: usize, to: usize, levels: usize) -> Result<(), Fault>
        requires { from ≤ to }
        ensures { ItemsTold self.old levels from to self.new result }
    {
        let mut next = from;
        while next < to {
            next = self.value(next, to, levels)?;
        }
        Ok(())
    }

    // The members of an object from `from` to `to`.
    #[cycle(items_members_value)]
    pub(crate) fn members(&mut self, from: usize, to: usize, levels: usize) -> Result<(), Fault>
        requires { from ≤ to }
        ensures { MembersTold self.old levels from to self.new result }
    {
        let base = self.names.len();
        let mut next = from;
        while next < to {
            let onward = self.member_name(next, to, base)?;
            next = self.value(onward, to, levels)?;
        }
        self.names.close(base);
        Ok(())
    }

    // The name of the member at `at`, which none of the names from `base` on is: where its record ends.
    fn member_name(&mut self, at: usize, to: usize, base: usize) -> Result<usize, Fault>
        requires sound { Sound self.old.bytes.now [] self.old.names.links.items base }
        requires below { base ≤ length self.old.names.links.items }
        ensures { NameTold self.old at to base self.new result }
    {
        let record = Record::at(self.bytes, at, to).ok_or(Fault::BadText(at))?;
        if !record.is_name() || !name_form(record.body) {
            return Err(Fault::BadText(at));
        }
        let end = record.end();
        let holder = Holder {
            text: self.bytes,
            pool: &[],
        };
        let name = Part::Text {
            start: record.from,
            end,
        };
        let added = self.names.add(base, holder, name)?;
        if !added {
            return Err(Fault::RepeatedName(at));
        }
        Ok(end)
    }
}
