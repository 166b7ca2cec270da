// Numbers of six digits, the last of which is the check digit of the others.
ghost use Rattle.std.specs.Prelude.{◌≡◌, ◌+◌, ◌*◌, ◌%◌, ◌≤◌};
ghost use Rattle.common.specs.CheckDigit.{doubled, is_right, last_digits};

// What the last digit of a number counts for when it is doubled, but for whole tens: the units of its double, and 1 where the double has a ten.
fn doubled(number: u32) -> u32
    requires { number ≤ 429496729 }
    ensures { (result ≤ 2 * number + 1) × (result % 10 ≡ doubled (number % 10) % 10) }
{
    2 * number + number / 5 % 2
}

// Whether the last of six digits is the check digit of the others: the digits of the odd places doubled, those of the even places and the check digit make
// whole tens. As tens do not matter, a digit may stand at the end of a longer number.
pub fn is_right(number: u32) -> bool
    ensures { result ≡ is_right (last_digits 6 number) }
{
    if number == 0 {
        return true;
    }
    let odd = doubled(number / 10) + doubled(number / 1000) + doubled(number / 100000);
    let even = number / 100 + number / 10000;
    (odd + even + number % 10) % 10 == 0
}
