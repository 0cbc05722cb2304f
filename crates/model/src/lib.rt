// What coercion, records and sheets mean (specs/), and the laws that follow (proofs/): a function for each law.
#![tactic(auto)]

ghost use Rattle.model.specs.Cases.{WorkedCases};
ghost use Rattle.model.specs.CheckCases.{CheckedCases};
ghost use Rattle.model.specs.UseCases.{CheckedUses};
ghost use Rattle.model.specs.CycleCases.{CycleCases};
ghost use Rattle.model.specs.Laws.{WholeAsDecimal, SameNumber, ScalarsExactly, OutcomeStays, AllSettle, AcceptsExactly, TakesOnce, WalkAgrees, WalkFits, EncodeInjective, SizeIsLength, DecodesOnce, AcceptsConforming, AcceptsWithin, ComesBack, SameWhenAlike, RunsStand, LoadCoerces, ExtentsCut, EqualBytesWhenAlike, LoadsBack, ShownAreTwins, PlacesDoNotMatter};
ghost use Rattle.model.specs.CycleLaws.{AcyclicSettles, CyclesNeverSettle, AcyclicExactly, AcyclicWhenTaken, CyclesByNumber, NumberedOnce};
ghost use Rattle.model.specs.CheckLaws.{UsageExactly, UncoercibleExactly, FindsTheBroken, SilenceIsCoercion, SilenceLeavesTheRule, SilenceHoldsNoVariable, TwinsFindAlike};
ghost use Rattle.model.specs.UseLaws.{UsesFindTheBroken, FoundInTurn, SilentIsFaultless, TwinUsesFindAlike};

// Each worked case leaves what it says, computed from the definitions.
pub fn worked_cases_stand()
    ensures { WorkedCases }
{}

// Each case of default cycles is on a cycle, or is without one, as it says.
pub fn cycle_cases_stand()
    ensures { CycleCases }
{}

// A whole number's decimal is in normal form and worth the same.
pub fn whole_as_decimal_stands()
    ensures { WholeAsDecimal }
{}

// Numbers in normal form are the same exactly when they are worth the same.
pub fn same_number_stands()
    ensures { SameNumber }
{}

// The function on scalars takes what the relation takes, and nothing else.
pub fn scalars_exactly_stands()
    ensures { ScalarsExactly }
{}

// An outcome of coercion stays as the bound on nested defaults grows.
pub fn outcome_stays_stands()
    ensures { OutcomeStays }
{}

// Where a schema's defaults have outcomes at a bound, every value has one.
pub fn all_settle_stands()
    ensures { AllSettle }
{}

// Where no field leads back to itself by its default, all defaults have outcomes at the number of the fields that have one.
pub fn acyclic_settles_stands()
    ensures { AcyclicSettles }
{}

// A default on a cycle comes to no record at any bound.
pub fn cycles_never_settle_stands()
    ensures { CyclesNeverSettle }
{}

// Where no default is refused, there is no cycle exactly when the defaults have outcomes at some bound.
pub fn acyclic_exactly_stands()
    ensures { AcyclicExactly }
{}

// Where every default is right and the rule accepts everything, there is no cycle exactly when every default comes to a record.
pub fn acyclic_when_taken_stands()
    ensures { AcyclicWhenTaken }
{}

// Cycles by the numbers of the fields, and the sets of paths by which Warshall's closure finds them.
pub fn cycles_by_number_stands()
    ensures { CyclesByNumber }
{}

// A field has one number where no name is declared twice.
pub fn numbered_once_stands()
    ensures { NumberedOnce }
{}

// Coercion accepts what the relation has, and nothing else.
pub fn accepts_exactly_stands()
    ensures { AcceptsExactly }
{}

// A value comes to one record at most.
pub fn takes_once_stands()
    ensures { TakesOnce }
{}

// Unless depth or capacity refuses, the walk has the outcome of coercion without limits.
pub fn walk_agrees_stands()
    ensures { WalkAgrees }
{}

// The walk accepts what coercion accepts and the limits hold, and nothing else.
pub fn walk_fits_stands()
    ensures { WalkFits }
{}

// Different records, and different sheets, have different bytes.
pub fn encode_injective_stands()
    ensures { EncodeInjective }
{}

// The size of a record or of a sheet is the number of its bytes.
pub fn size_is_length_stands()
    ensures { SizeIsLength }
{}

// What was encoded is decoded, to one thing only.
pub fn decodes_once_stands()
    ensures { DecodesOnce }
{}

// Whatever is accepted conforms to its type.
pub fn accepts_conforming_stands()
    ensures { AcceptsConforming }
{}

// What the walk accepts of a source is within every limit of a source.
pub fn accepts_within_stands()
    ensures { AcceptsWithin }
{}

// A conforming record, taken as a raw value in JSON form, coerces to itself.
pub fn comes_back_stands()
    ensures { ComesBack }
{}

// Two accepted values give the same record exactly when they are alike.
pub fn same_when_alike_stands()
    ensures { SameWhenAlike }
{}

// After any list of calls, a sheet holds what its standing values come to, within its capacity.
pub fn runs_stand_stands()
    ensures { RunsStand }
{}

// An accepted load leaves what CoerceVariableValues gives, without limits.
pub fn load_coerces_stands()
    ensures { LoadCoerces }
{}

// Each variable's extent cuts its name and record out of the sheet's bytes.
pub fn extents_cut_stands()
    ensures { ExtentsCut }
{}

// Two runs leave equal bytes exactly when what stands is alike, variable by variable.
pub fn equal_bytes_when_alike_stands()
    ensures { EqualBytesWhenAlike }
{}

// A sheet's bytes, loaded where they fit, are accepted and give equal bytes.
pub fn loads_back_stands()
    ensures { LoadsBack }
{}

// Values that show one record are the same but for their places.
pub fn shown_are_twins_stands()
    ensures { ShownAreTwins }
{}

// Values that are the same but for their places have the same outcome, but for the places of refusals.
pub fn places_do_not_matter_stands()
    ensures { PlacesDoNotMatter }
{}

// A variable is allowed exactly where IsVariableUsageAllowed and AreTypesCompatible allow it.
pub fn usage_exactly_stands()
    ensures { UsageExactly }
{}

// A scalar is uncoercible exactly where its type takes nothing of it as a literal.
pub fn uncoercible_exactly_stands()
    ensures { UncoercibleExactly }
{}

// The literal check finds something exactly where a rule is broken, by kind and place.
pub fn finds_the_broken_stands()
    ensures { FindsTheBroken }
{}

// The literal check is silent exactly where coercion accepts, if the rule accepts everything.
pub fn silence_is_coercion_stands()
    ensures { SilenceIsCoercion }
{}

// In values that are the same but for their places, the literal check finds the same kinds.
pub fn twins_find_alike_stands()
    ensures { TwinsFindAlike }
{}

// In each worked case the literal check finds what it says, computed from the definition.
pub fn checked_cases_stand()
    ensures { CheckedCases }
{}

// Where the literal check is silent, coercion accepts, or the rule alone refuses.
pub fn silence_leaves_the_rule_stands()
    ensures { SilenceLeavesTheRule }
{}

// Where no variable is declared, the literal check is silent only about values without variables.
pub fn silence_holds_no_variable_stands()
    ensures { SilenceHoldsNoVariable }
{}

// The check of directive uses finds something exactly where a rule is broken, by kind and place.
pub fn uses_find_the_broken_stands()
    ensures { UsesFindTheBroken }
{}

// What is found of a use comes in turn, and use by use.
pub fn found_in_turn_stands()
    ensures { FoundInTurn }
{}

// Nothing is found of a use exactly where it is without a fault.
pub fn silent_is_faultless_stands()
    ensures { SilentIsFaultless }
{}

// Of uses that are the same but for their places, the same kinds are found.
pub fn twin_uses_find_alike_stands()
    ensures { TwinUsesFindAlike }
{}

// In each worked case the check of directive uses finds what it says, computed from the definition.
pub fn checked_uses_stand()
    ensures { CheckedUses }
{}
