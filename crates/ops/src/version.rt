// The version that the rules use (version/mod.rs), and the two bounds at which they change. Leans on nothing.
ghost use Rattle.std.specs.Prelude.{◌≡◌};
ghost use Rattle.molang.specs.Order as order;

// The newest version, and the one that an invalid number stands for.
pub const LATEST: i16 = 13;

pub const INVALID: i16 = -1;

// The version whose rules a raw version follows (`RawVersion::effective`): a negative one -1, one above 13 as 13.
pub fn effective(raw: i16) -> i16
    ensures { result ≡ order.effective raw }
{
    raw.clamp(INVALID, LATEST)
}

// Whether a version is 5 or above: nested conditionals pair to the right. This and the next are one comparison each, and one function of
// the bound would be no plainer than `<=`.
pub fn is_from_5(version: i16) -> bool
    ensures { result ≡ order.is_from 5 version }
{
    5 <= version
}

// Whether a version is 6 or above: comparisons come before equality, and AND before OR.
pub fn is_from_6(version: i16) -> bool
    ensures { result ≡ order.is_from 6 version }
{
    6 <= version
}
