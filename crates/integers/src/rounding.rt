// How an exact result is made to fit an i32.
ghost use Rattle.std.specs.Prelude.{◌≡◌, ◌^◌, ◌≤◌, ◌*ℤ◌};
ghost use Rattle.std.specs.Int.Signed.{mag};
ghost use Rattle.integers.specs.Rounds.{clamped, rounded};

// The i32 nearest to `z`.
pub fn clamp(z: i64) -> i32
    ensures { result ≡ clamped z }
{
    z.clamp(i32::MIN as i64, i32::MAX as i64) as i32
}

// n / d rounded down, and zero where `d` is zero.
fn round(n: i64, d: i32) -> i64
    requires { mag n ≤ 2 ^ 62 }
    ensures { result ≡ rounded n d }
{
    let d = d as i64;
    if d == 0 {
        return 0;
    }
    if d < 0 {
        (-n).div_euclid(-d)
    } else {
        n.div_euclid(d)
    }
}

// a * b, which an i64 holds.
pub fn product(a: i32, b: i32) -> i64
    ensures value { result ≡ a *ℤ b }
    ensures bound { mag result ≤ 2 ^ 62 }
{
    a as i64 * b as i64
}

// a * b / d, rounded and then clamped.
pub fn ratio(a: i32, b: i32, d: i32) -> i32
    ensures { result ≡ clamped (rounded (a *ℤ b) d) }
{
    clamp(round(product(a, b), d))
}
