// The greatest common divisor and the least common multiple. The crate's other matter is the definitions and laws in specs/ and proofs/.
#![tactic(auto)]

ghost use Rattle.std.specs.Prelude.{◌≡◌};
ghost use Rattle.laws.specs.Lcm.{gcd_of, lcm_of};

// The greatest common divisor, by Euclid's steps.
pub fn gcd(a: u32, b: u32) -> u32
    ensures { result ≡ gcd_of a b }
{
    let mut x = a;
    let mut y = b;
    while y != 0 {
        let t = x % y;
        x = y;
        y = t;
    }
    x
}

// The least common multiple.
pub fn lcm(a: u32, b: u32) -> u64
    ensures { result ≡ lcm_of a b }
{
    if a == 0 {
        return 0;
    }
    let g = gcd(a, b);
    u64::from(a / g) * u64::from(b)
}
