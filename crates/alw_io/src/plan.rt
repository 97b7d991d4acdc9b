ghost use Rattle.std.specs.Prelude.{◌↔◌, Contains, IsTrue};

// Whether a call is one of those that fail.
pub(crate) fn is_planned(fails: &[u32], call: u64) -> bool
    ensures { IsTrue result ↔ Contains fails.now call }
{
    fails.iter().any(|&number| u64::from(number) == call)
}
