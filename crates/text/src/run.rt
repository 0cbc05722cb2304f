// Runs of bytes.
ghost use Rattle.text.specs.Cuts.{Front};

// How many bytes at the front pass, up to the first that does not.
pub(crate) fn run_len<F: Fn(u8) -> bool>(text: &[u8], passes: F) -> usize
    requires { F.IsAlwaysCallable passes }
    ensures { Front (F.post passes) text.now result }
{
    text.iter().position(|b| !passes(*b)).unwrap_or(text.len())
}
