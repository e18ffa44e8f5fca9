// What each operation of a body line puts, on words modulo 2^32.

#![tactic(auto)]

ghost use Rattle.std.specs.Prelude.{◌≡◌, ◌-◌, ◌*◌, ◌%◌, ◌≤◌};
ghost use Rattle.meaning.specs.Operations.{modulus, fixed_product, operate};

// The exact product.
fn exact(a: u32, b: u32) -> u64
    ensures { (result ≡ a * b) × (result ≤ (modulus - 1) * (modulus - 1)) }
{
    u64::from(a) * u64::from(b)
}

// The product modulo 2^32.
pub fn times(a: u32, b: u32) -> u32
    ensures { result ≡ (a * b) % modulus }
{
    a.wrapping_mul(b)
}

// The product of two 16.16 numbers: divided by 2^16, rounded down, modulo 2^32.
pub fn fixed_times(a: u32, b: u32) -> u32
    ensures { result ≡ fixed_product a b }
{
    (exact(a, b) / 0x1_0000 % 0x1_0000_0000) as u32
}

// One operation: copy the first, add, subtract, multiply, smaller, larger, multiply as 16.16 numbers.
pub fn operate(op: u32, a: u32, b: u32) -> u32
    ensures { result ≡ operate op a b }
{
    match op {
        0 => a,
        1 => a.wrapping_add(b),
        2 => a.wrapping_sub(b),
        3 => times(a, b),
        4 => a.min(b),
        5 => a.max(b),
        _ => fixed_times(a, b),
    }
}
