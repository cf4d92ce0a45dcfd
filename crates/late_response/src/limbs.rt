ghost use Rattle.std.specs.Prelude.{◌≡◌, ◌↔◌, ◌+◌, ◌*◌, ◌≤◌, ◌<◌, ◌⊎◌, length, true};
ghost use Rattle.late_response.specs.Limbs.{value, room};

/// The base of the digits.
const BASE: u64 = 4_294_967_296;

/// Multiplies a number by a small one and adds another times a small one; the least digit stands first.
pub fn scale_and_add(digits: &mut [u32], by: u32, plus: &[u32], times: u32)
    requires long { length plus.now ≡ length digits.old }
    requires by { by ≤ 1000000000 }
    requires times { times ≤ 1000000000 }
    requires fits { value digits.old * by + value plus.now * times < room (length digits.old) }
    ensures { value digits.new ≡ value digits.old * by + value plus.now * times }
{
    let mut carry = 0;
    'digits: for index in 0..digits.len() {
        let sum = u64::from(digits[index]) * u64::from(by)
            + u64::from(plus[index]) * u64::from(times)
            + carry;
        digits[index] = (sum % BASE) as u32;
        carry = sum / BASE;
    }
}

/// Returns whether one more digit leaves a number at most another.
fn is_at_most_with(left: u32, right: u32, before: bool) -> bool
    ensures { (result ≡ true) ↔ ((left < right) ⊎ ((left ≡ right) × (before ≡ true))) }
{
    left < right || (left == right && before)
}

/// Returns whether a number is at most another of as many digits.
pub fn is_at_most(left: &[u32], right: &[u32]) -> bool
    requires long { length left.now ≡ length right.now }
    ensures { (result ≡ true) ↔ (value left.now ≤ value right.now) }
{
    let mut at_most = true;
    'digits: for index in 0..left.len() {
        at_most = is_at_most_with(left[index], right[index], at_most);
    }
    at_most
}
