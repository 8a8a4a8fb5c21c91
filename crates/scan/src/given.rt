// What the walk is given. Leans on ops.
ghost use Rattle.std.specs.Prelude.{◌≡◌, ◌%◌, ◌≤◌, length};
ghost use Rattle.scan.specs.Tables.{IsLow, HasOpeners};

use ops::sets::OpSet;

// A list of whole tokens, 4,096 at most; the table of its version, whose grades are low and whose openers are brackets; and the used set.
#[derive(Clone, Copy)]
pub struct Given<'a> {
    pub list: &'a [u32],
    pub table: &'a [u32; 112],
    pub used: OpSet,
    ghost whole: { length list.now % 5 ≡ 0 },
    ghost few: { length list.now ≤ 20480 },
    ghost low: { IsLow table.now },
    ghost openers: { HasOpeners table.now },
}
