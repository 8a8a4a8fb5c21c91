// What a mark that asks for a reading says of it: the versions and the nesting limit. Leans on accept (the highest limit) and molang (the
// marks); specs/Asked says what
// a mark means.
ghost use Rattle.std.specs.Prelude.{◌≡◌, ◌≤◌};
ghost use Rattle.table.specs.Asked.{first_version, last_version, limit_of};

use accept::MOST_LIMIT;
use molang::lines::{ANY, AT, WITHIN};

// The last version that a mark asks for, by its sixteen bits if it names one.
pub fn last_version(mark: u32) -> u32
    ensures { (result ≡ last_version mark) × (result ≤ 65535) }
{
    if WITHIN <= mark {
        return 6;
    }
    if AT <= mark {
        return (mark - AT) % 65_536;
    }
    6
}

// The first version that it asks for: a list that is read at 4, 5 and 6 is read at 4 first.
pub fn first_version(mark: u32) -> u32
    ensures { result ≡ first_version mark }
{
    if mark == ANY {
        return 4;
    }
    last_version(mark)
}

// The nesting limit that it asks for: the highest if it names none.
pub fn limit_of(mark: u32) -> u32
    ensures { result ≡ limit_of mark }
{
    if WITHIN <= mark {
        return mark - WITHIN;
    }
    MOST_LIMIT
}
