// Text laid into a lent buffer of bytes, a part behind the other: bytes as they are, and numbers in decimal. All bytes but those of the
// text stay as they were. Leans on io (digits) and on words (what it is to be laid); specs/Text has the definitions.
#![tactic(auto)]

ghost use Rattle.std.specs.Prelude.{◌+◌, ◌≤◌, length};
ghost use Rattle.text.specs.Text.{Wrote, decimal, numbered};

// Puts bytes from the index `at` on; the index behind them. The callers, in `listing`, `liftcount` and `everylist`, have room for their
// longest text, here and below.
pub fn put_bytes(out: &mut [u8], at: usize, bytes: &[u8]) -> usize
    requires { at + length bytes.now ≤ length out.old }
    ensures { Wrote out.old at bytes.now result out.new }
{
    out[at..at + bytes.len()].copy_from_slice(bytes);
    at + bytes.len()
}

// A number in decimal.
pub fn put_decimal(out: &mut [u8], at: usize, n: usize) -> usize
    requires { at + 20 ≤ length out.old }
    ensures { Wrote out.old at (decimal n) result out.new }
{
    let mut digits = [0u8; 20];
    let k = io::decimal(n as u64, &mut digits);
    put_bytes(out, at, &digits[..k])
}

// A number in decimal, and the byte that stands after it.
pub fn put_number(out: &mut [u8], at: usize, n: usize, after: u8) -> usize
    requires { at + 21 ≤ length out.old }
    ensures { Wrote out.old at (numbered n after) result out.new }
{
    let end = put_decimal(out, at, n);
    put_bytes(out, end, &[after])
}
