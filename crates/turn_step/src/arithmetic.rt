// Numbers and comparisons of values.

ghost use Rattle.std.specs.Prelude.{◌≡◌, ◌+◌, ◌-◌, ◌*◌, ◌%◌, ◌^◌, nat_lt};
ghost use Rattle.turn_rules.specs.Segment.{number_of, one_if, value_eq};

use orca_names::Value;

/// The number of a value; one that is no number counts as 0.
pub(crate) fn number(value: Value) -> u64
    ensures { result ≡ number_of value }
{
    match value {
        Value::Num(n) => n,
        _ => 0,
    }
}

/// The number 1 where it holds, else 0.
fn one_if(holds: bool) -> Value
    ensures { result ≡ Value.Num (one_if holds) }
{
    Value::Num(if holds { 1 } else { 0 })
}

/// The sum of two numbers modulo 2^64.
pub(crate) fn sum(a: Value, b: Value) -> Value
    ensures { result ≡ Value.Num ((number_of a + number_of b) % 2 ^ 64) }
{
    Value::Num(number(a).wrapping_add(number(b)))
}

/// The difference of two numbers modulo 2^64.
pub(crate) fn difference(a: Value, b: Value) -> Value
    ensures { result ≡ Value.Num ((number_of a + 2 ^ 64 - number_of b) % 2 ^ 64) }
{
    Value::Num(number(a).wrapping_sub(number(b)))
}

/// The product of two numbers modulo 2^64.
pub(crate) fn product(a: Value, b: Value) -> Value
    ensures { result ≡ Value.Num ((number_of a * number_of b) % 2 ^ 64) }
{
    Value::Num(number(a).wrapping_mul(number(b)))
}

/// Whether the first number is less than the second, as 1 or 0.
pub(crate) fn is_less(a: Value, b: Value) -> Value
    ensures { result ≡ Value.Num (one_if (nat_lt (number_of a) (number_of b))) }
{
    one_if(number(a) < number(b))
}

/// Whether two values are equal, as 1 or 0.
pub(crate) fn is_same(a: Value, b: Value) -> Value
    ensures { result ≡ Value.Num (one_if (value_eq a b)) }
{
    one_if(a == b)
}
