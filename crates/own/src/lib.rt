// Reads a list at its own used set, at a source length that is given or at its highest span end. Leans on derived (the set and the end),
// accept (the highest nesting limit) and parse; specs/Own has the definitions. Two readings beside each other are `beside`.
#![tactic(auto)]

pub mod beside;

ghost use Rattle.std.specs.Prelude.{◌≡◌};
ghost use Rattle.molang.specs.Words.{operator_field, words_refusal};
ghost use Rattle.molang.specs.Parse.{told, tree_in, messages_in, work_in};
ghost use Rattle.parse.specs.Answers.{told_of, HasParsed};
ghost use Rattle.own.specs.Own.{named_call, own_call, Readable, reading_of};

use accept::MOST_LIMIT;
use derived::{highest_end, used_of};
use parse::{Answer, parse};
use words::refusals::Refusal;

// Reads a list with exactly the operators that its words name, whatever the words and the buffers are.
pub fn read_exactly(
    list: &[u32],
    tree: &mut [u32],
    messages: &mut [u32],
    work: &mut [u32],
    source_length: u64,
    version: i16,
    limit: u32,
) -> Result<Answer, Refusal>
    ensures { HasParsed
        (named_call list.now tree.old messages.old work.old source_length version limit)
        result tree.new messages.new work.new }
{
    let used = used_of(list);
    parse(
        list,
        tree,
        messages,
        work,
        source_length,
        version,
        used.low,
        used.high,
        limit,
    )
}

// The same, its highest span end being the source length.
pub fn read_own(
    list: &[u32],
    tree: &mut [u32],
    messages: &mut [u32],
    work: &mut [u32],
    version: i16,
    limit: u32,
) -> Result<Answer, Refusal>
    ensures { HasParsed
        (own_call list.now tree.old messages.old work.old version limit)
        result tree.new messages.new work.new }
{
    let source = highest_end(list);
    read_exactly(list, tree, messages, work, source as u64, version, limit)
}

// Reads a list of at most 128 tokens, however deep it is nested. The programs have seen that it has whole tokens and no more, and lend
// buffers that are long enough.
pub fn read_list(
    list: &[u32],
    tree: &mut [u32],
    messages: &mut [u32],
    work: &mut [u32],
    version: i16,
) -> Result<Answer, Refusal>
    requires { Readable list.now tree.old messages.old work.old }
    ensures result_value { told_of result ≡ told (words_refusal 0 operator_field 0 list.now) (reading_of list.now version) }
    ensures tree_after { tree.new ≡ tree_in (words_refusal 0 operator_field 0 list.now)
        (reading_of list.now version) tree.old }
    ensures messages_after { messages.new ≡ messages_in (words_refusal 0 operator_field 0 list.now)
        (reading_of list.now version) messages.old }
    ensures work_after { work.new ≡ work_in (words_refusal 0 operator_field 0 list.now) work.old }
{
    read_own(list, tree, messages, work, version, MOST_LIMIT)
}
