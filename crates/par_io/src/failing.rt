//! The calls that are to fail, by their numbers from 1.
ghost use Rattle.std.specs.Prelude.{◌↔◌, Contains, IsTrue};

/// Whether the call with this number is one of those that are to fail.
pub(crate) fn is_listed(failing: &[u32], call: u64) -> bool
    ensures { IsTrue result ↔ Contains failing.now call }
{
    failing.iter().any(|listed| u64::from(*listed) == call)
}
