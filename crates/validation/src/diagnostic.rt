// What a check finds in an operation.
ghost use Rattle.std.specs.Prelude.{◌≡◌};
ghost use Rattle.model.specs.Checking.{finding_number};
ghost use Rattle.validation.specs.Diagnosed.{kind_of};

// The checks of an operation, each by its number.
#[derive(Clone, Copy, Debug, PartialEq)]
pub enum DiagnosticKind {
    DisallowedVariableUsage,
    UnsupportedValueType,
    IntCoercionError,
    FloatCoercionError,
    UndefinedVariable,
    UndefinedEnumValue,
    UndefinedInputValue,
    RequiredField,
}

impl DiagnosticKind {
    pub fn number(self) -> u8
        ensures { result ≡ finding_number (kind_of self) }
    {
        match self {
            DiagnosticKind::DisallowedVariableUsage => 105,
            DiagnosticKind::UnsupportedValueType => 108,
            DiagnosticKind::IntCoercionError => 109,
            DiagnosticKind::FloatCoercionError => 110,
            DiagnosticKind::UndefinedVariable => 111,
            DiagnosticKind::UndefinedEnumValue => 112,
            DiagnosticKind::UndefinedInputValue => 113,
            DiagnosticKind::RequiredField => 114,
        }
    }
}

#[derive(Clone, Copy, Debug, PartialEq)]
pub struct Diagnostic {
    pub kind: DiagnosticKind,
    // An offset in the text of the operation.
    pub place: usize,
}
