// What JSON texts, literals and sheets' bytes agree on: a function for each law.
#![tactic(auto)]

ghost use Rattle.std.specs.Prelude.{ℕ};
ghost use Rattle.model.specs.Values.{Raw};
ghost use Rattle.model.specs.Twins.{Twin};
ghost use Rattle.agreement.specs.Laws.{SameOutcome, SourcesAgree, ShownAgree, EncodedStands, SheetsComeBack};

use source::raw::Source;

// Whatever the sources are, values that are the same but for places have the same outcome in one form.
pub fn any_sources_agree<A: Source, B: Source>(one: &A, other: &B)
    ensures { (at to : ℕ) (x y : Raw) → A.stands one.now at x → B.stands other.now to y → Twin x y → SameOutcome x y }
{}

// An input says one value at most, and those that say the same but for places have the same outcome in one form,
// whichever readers read them.
pub fn sources_agree()
    ensures { SourcesAgree }
{}

// A JSON text agrees with a sheet's bytes exactly where it writes what their record shows.
pub fn shown_agree()
    ensures { ShownAgree }
{}

// What was encoded within the limits stands in its bytes, and nothing else does.
pub fn encoded_stands()
    ensures { EncodedStands }
{}

// The bytes of a sheet, after any list of calls, are read, and loaded they leave equal bytes.
pub fn sheets_come_back()
    ensures { SheetsComeBack }
{}
