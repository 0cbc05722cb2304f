// What the values of custom scalars may be.
ghost use Rattle.std.specs.Prelude.{◌≡◌, ℕ, Bool, true, List};

// A rule for the values of custom scalars.
pub trait ScalarRule {
    // Whether a scalar, by its name, takes a record.
    ghost takes: { Self → List ℕ → List ℕ → Bool };

    // Whether the scalar of that name takes the record that these bytes are, its header included.
    fn accepts(&self, scalar: &[u8], bytes: &[u8]) -> bool
        ensures { result ≡ takes self.now scalar.now bytes.now };
}

// The rule under which every scalar takes everything.
#[derive(Clone, Copy, Debug)]
pub struct AcceptAll;

impl ScalarRule for AcceptAll {
    ghost takes = { λ _ _ _. true };

    fn accepts(&self, _scalar: &[u8], _bytes: &[u8]) -> bool {
        true
    }
}
