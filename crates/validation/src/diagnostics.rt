// The list of what a check finds.
ghost use Rattle.std.specs.Prelude.{◌≡◌, ◌^◌, ◌<◌, length};

use crate::diagnostic::{Diagnostic, DiagnosticKind};

// All that was found is counted, and the first that fit are kept in the place that was handed in.
#[derive(Drop)]
pub struct Diagnostics<'p> {
    pub place: &'p mut [Diagnostic],
    pub total: usize,
    ghost indexed: { length place.now < 2 ^ 64 },
    ghost counted: { total < 2 ^ 64 },
}

impl<'p> Diagnostics<'p> {
    ghost use Rattle.model.specs.Checking.{found};
    ghost use Rattle.validation.specs.Diagnosed.{kind_of, Noted};

    // Nothing found yet: the place is as it was.
    pub fn new(place: &'p mut [Diagnostic]) -> Diagnostics<'p>
        ensures same { result.place.ghost_name ≡ place.entry.ghost_name }
        ensures place { result.place.now ≡ place.old }
        ensures total { result.total ≡ 0 }
    {
        Diagnostics { place, total: 0 }
    }

    // Notes one more. The count stays at the greatest number that it can hold.
    pub fn note(&mut self, kind: DiagnosticKind, place: usize)
        ensures { Noted self.old self.new (found (kind_of kind) place) }
    {
        if self.total < self.place.len() {
            self.place[self.total] = Diagnostic { kind, place };
        }
        self.total = self.total.saturating_add(1);
    }
}
