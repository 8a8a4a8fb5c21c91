// The export of the reader that says which rule made each node: the rule buffer comes as a pointer to bytes and their number. Leans on
// rules.
ghost use Rattle.rules.specs.Answers.{call};
ghost use Rattle.sorbrudder.specs.Numbers.{HasRuledTo};

use crate::parsed_number;
use rules::parse_ruled;

// Reads a list and says which rule made each node: `parse_ruled`, with its answer as one number.
#[unsafe(no_mangle)]
pub extern "C" fn sorbrudder_parse_rules(
    list: &[u32],
    tree: &mut [u32],
    messages: &mut [u32],
    work: &mut [u32],
    rules: &mut [u8],
    source_length: u64,
    version: i16,
    used_low: u64,
    used_high: u64,
    limit: u32,
) -> u64
    ensures { HasRuledTo
        (call list.now tree.old messages.old work.old rules.old
        source_length version used_low used_high limit)
        result tree.new messages.new work.new rules.new }
{
    let answer = parse_ruled(
        list,
        tree,
        messages,
        work,
        rules,
        source_length,
        version,
        used_low,
        used_high,
        limit,
    );
    parsed_number(answer)
}
