ghost use Rattle.std.specs.Prelude.{SomeIff, ◌<◌, ◌^◌};
ghost use Rattle.seq_tree.specs.Lexis.{value_from};

/// The value of digits with underscores between them, where it is a `u32`.
#[tactic(auto, using(crate::proofs::ValueSteps::value_steps))]
pub(crate) fn number_value(digits: &[u8]) -> Option<u32>
    ensures { SomeIff result (value_from 0 digits.now < 2 ^ 32) (value_from 0 digits.now) }
{
    let mut value: u32 = 0;
    'digits: for digit in digits {
        if *digit != b'_' {
            value = value
                .checked_mul(10)?
                .checked_add(u32::from(digit.saturating_sub(b'0')))?;
        }
    }
    Some(value)
}
