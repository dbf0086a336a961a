//! The sum of a state.

ghost use Rattle.std.specs.Prelude.{◌≡◌, sum};

/// The sum of values.
pub fn total(values: &[u64]) -> u128
    ensures { result ≡ sum values.now }
{
    let mut total = 0u128;
    for value in values {
        total += u128::from(*value);
    }
    total
}
