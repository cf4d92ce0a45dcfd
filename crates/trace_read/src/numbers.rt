ghost use Rattle.std.specs.Prelude.{◌≡◌};
ghost use Rattle.trace_read.specs.Reading.{number_of, value_of};

/// The number that digits write, where it is a `u64`.
#[tactic(auto, unfolding(crate::specs::Reading::number_of))]
pub(crate) fn number_of(word: &[u8]) -> Option<u64>
    ensures { result ≡ number_of word.now }
{
    let mut value: u64 = 0;
    'digits: for digit in word {
        if !digit.is_ascii_digit() {
            return None;
        }
        value = value
            .checked_mul(10)?
            .checked_add(u64::from(digit.saturating_sub(b'0')))?;
    }
    Some(value)
}

/// The number that digits write, where it is a `u32`.
#[tactic(auto, unfolding(crate::specs::Reading::value_of))]
pub(crate) fn value_of(word: &[u8]) -> Option<u32>
    ensures { result ≡ value_of word.now }
{
    u32::try_from(number_of(word)?).ok()
}
