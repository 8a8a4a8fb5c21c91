// The table and the text of its lines, a constant beside a constant; that the text is the table's is computed once. Leans on molang (the
// table); specs/Said says which text a line has.
ghost use Rattle.std.specs.Prelude.{◌≡◌};
ghost use Rattle.table.specs.Said.{table_text};

use molang::lines::{COUNT, LINES};

const BYTES: usize = 2726;

// A line of text for each line of the table.
const TEXT: [u8; BYTES] = *b"no tokens at 4, 5 and 6
a at 4, 5 and 6
a b at 4, 5 and 6
a - b at 4, 5 and 6
a - - b at 4, 5 and 6
- - a at 4, 5 and 6
a * b / c at 4, 5 and 6
a && b || c at 5
a && b || c at 6
a > b == c at 5
a > b == c at 6
a ? b : c ? d : e at 4
a ? b : c ? d : e at 5
a + + at 4, 5 and 6
) at 4, 5 and 6
( a ] at 4, 5 and 6
( a b ) at 4, 5 and 6
a -> at 4, 5 and 6
query ( ) at 4, 5 and 6
sin ( ) at 4, 5 and 6
writing +/2 a */2 a a\x20
a : b at 4
writing :/2 a a\x20
a : b at 5
4096 tokens a
4097 tokens a
2 words 0
a + b at 6
a / b * c at 4, 5 and 6
a + b * c at 4, 5 and 6
a * b + c at 4, 5 and 6
a + b + c at 4, 5 and 6
- a at 4, 5 and 6
! a at 4, 5 and 6
! - a at 4, 5 and 6
a * - b at 4, 5 and 6
( a ) - b at 4, 5 and 6
{ a } - b at 4, 5 and 6
continue - a at 4, 5 and 6
- at 4, 5 and 6
! at 4, 5 and 6
+ a at 4, 5 and 6
a * + at 4, 5 and 6
a + + + at 4, 5 and 6
a + + + b at 4, 5 and 6
a || b && c at 4
a || b && c at -1
a || b && c at 6
a || b && c at 14
a >= b < c at 5
a >= b < c at 6
a != b == c at 5
a != b == c at 6
a == b < c at 5
a == b < c at 6
a ? b ? c : d : e at 5
a ? b at 5
a ? at 5
a ? at 4
a ?? b at 4, 5 and 6
a ?? b ? c at 5
a , b , c at 4, 5 and 6
a = b ; at 4, 5 and 6
a = b at 4, 5 and 6
; at 4, 5 and 6
a ; ; b ; at 4, 5 and 6
{ a ; } ; at 4, 5 and 6
query ( a ; ) ; at 4, 5 and 6
( query ( a ; ) ) ; at 4, 5 and 6
[ a ; ] ; at 4, 5 and 6
return a ; at 4, 5 and 6
return ( return a ) ; at 4, 5 and 6
return + a at 4, 5 and 6
return at 4, 5 and 6
. a at 4, 5 and 6
variable . . at 4, 5 and 6
a . at 4, 5 and 6
query ( a , b ) at 4, 5 and 6
query at 4, 5 and 6
sin ( a ) at 4, 5 and 6
sin at 4, 5 and 6
sin a at 4, 5 and 6
array [ a ] [ b ] at 4, 5 and 6
array [ array ] [ [ a ] ] at 4, 5 and 6
array [ ] at 4, 5 and 6
array at 4, 5 and 6
( a at 4, 5 and 6
( a ) ) b at 4, 5 and 6
( a b ) c at 4, 5 and 6
a -> b at 4, 5 and 6
a -> -> -> b at 4, 5 and 6
writing ?/2 a :/2 a a\x20
writing ?/2 a :/2 a ?/2 a a\x20
writing ,/2 ,/2 a a a\x20
writing ,/2 a ,/2 a a\x20
writing -/1 +/2 a a\x20
writing (/1 +/2 a a\x20
writing */2 (/1 a a\x20
writing sin/1 (\x20
writing query/1 (/1 ,/2 a a\x20
writing ;/1 ;/1 =/2 variable ?/2 a :/2 a a\x20
writing ;/2 ;/1 =/2 variable a ;/1 return/1 variable\x20
writing ;/1 ;/1 (/1 +/2 a a\x20
writing +/2 a +\x20
writing query/1 (\x20
writing (/2 a a\x20
writing ;/1 a\x20
writing ;/2 ;/1 array a\x20
writing ;/1 ;/1 ;/1 a\x20
writing ;/1 ;/2 a a\x20
writing ;/1 ;/1 array\x20
writing =/2 variable a\x20
writing +/2 a\x20
writing a a\x20
( a ) within 1
( ( a ) ) within 1
( a ] ( b ) within 1
) ( a ) within 1
) ( ( a ) ) within 1
( ( 111 within 1
111 within 0
a within 4097
a - 300 at 4, 5 and 6
a 262 b at 4, 5 and 6
300 ( a ) at 4, 5 and 6
256 1023 at 4, 5 and 6
a 255 at 4, 5 and 6
a 1024 at 4, 5 and 6
writing +/2 300 a\x20
writing 300/1 a\x20
writing 255\x20
";

// The table's numbers and the text of its lines.
#[derive(Clone, Copy)]
pub struct Lines {
    pub numbers: [u32; COUNT],
    pub text: [u8; BYTES],
}

pub fn table() -> Lines
    ensures { result.text ≡ table_text result.numbers }
{
    Lines {
        numbers: LINES,
        text: TEXT,
    }
}
