// Counts of calls.
ghost use Rattle.std.specs.Prelude.{◌≡◌};
ghost use Rattle.rl_outside.specs.Counts.{is_listed};

// Whether a call is among those that fail.
pub(crate) fn is_listed(call: u32, fail: &[u32]) -> bool
    ensures { result ≡ is_listed call fail.now }
{
    fail.contains(&call)
}
