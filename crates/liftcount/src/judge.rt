// What the open list comes to at both versions. Leans on own (the reading), parse (its answer) and words; specs/Judging has the definition.
ghost use Rattle.std.specs.Prelude.{Ok, ◌≡◌, ◌*◌, ◌%◌, ◌≤◌, length, take};
ghost use Rattle.molang.specs.Words.{operator_field, words_refusal};
ghost use Rattle.parse.specs.Answers.{told_of};
ghost use Rattle.own.specs.Own.{reading_of, Readable};
ghost use Rattle.liftcount.specs.Running.{refused_row, open_fault};
ghost use Rattle.liftcount.specs.Judging.{Holds, verdict_told, judged};

use crate::run::{ListBuffer, MOST_WORDS, MessageBuffer, TreeBuffer, WorkBuffer};
use own::beside::same_words;
use own::read_list;
use parse::Answer;
use words::fields;
use words::refusals::{Reason, Refusal};

// What a list that is not refused comes to: the same tree, different trees, messages at one version only, messages at both.
#[derive(Clone, Copy)]
pub enum Verdict {
    Same,
    Different,
    One,
    Both,
}

// The two answers. A told tree stands in its buffer.
fn compared(first: Answer, second: Answer, tree: &[u32], again: &[u32]) -> Verdict
    requires { (Holds (told_of (Ok first)) tree.now) × (Holds (told_of (Ok second)) again.now) }
    ensures { Ok result ≡ verdict_told (told_of (Ok first)) (told_of (Ok second)) tree.now again.now }
{
    match (first, second) {
        (Answer::Tree(n), Answer::Tree(m)) => {
            if n != m {
                return Verdict::Different;
            }
            if same_words(tree, again, fields::NODE_WORDS * n) {
                return Verdict::Same;
            }
            Verdict::Different
        }
        (Answer::Messages(_), Answer::Messages(_)) => Verdict::Both,
        _ => Verdict::One,
    }
}

// Reads a list at both versions. `judge` has seen that it has whole tokens, at most 128. The entry clears all the work that it is lent, so
// that it is lent what the tokens need.
fn read_twice(
    list: &[u32],
    from: i16,
    to: i16,
    tree: &mut TreeBuffer,
    again: &mut TreeBuffer,
    messages: &mut MessageBuffer,
    work: &mut WorkBuffer,
) -> Result<Verdict, Refusal>
    requires { (length list.now % 5 ≡ 0) × (length list.now ≤ 640) }
    ensures { refused_row result ≡ judged (words_refusal 0 operator_field 0 list.now)
        (reading_of list.now from) (reading_of list.now to) }
{
    let room = 64 * (list.len() / fields::TOKEN_WORDS) + 64;
    let part = &mut work[..room];
    let first = read_list(list, tree, messages, part, from)?;
    let second = read_list(list, again, messages, part, to)?;
    Ok(compared(first, second, tree, again))
}

// What the open list comes to, which is so many words in front of its buffer.
pub fn judge(
    list: &ListBuffer,
    words: usize,
    from: i16,
    to: i16,
    tree: &mut TreeBuffer,
    again: &mut TreeBuffer,
    messages: &mut MessageBuffer,
    work: &mut WorkBuffer,
) -> Result<Verdict, Refusal>
    ensures { refused_row result ≡ judged (open_fault words list.now)
        (reading_of (take words list.now) from) (reading_of (take words list.now) to) }
{
    if words % fields::TOKEN_WORDS != 0 {
        return Err(Reason::ListNotWhole.at(0));
    }
    if MOST_WORDS < words {
        return Err(Reason::TooManyTokens.at(0));
    }
    read_twice(&list[..words], from, to, tree, again, messages, work)
}
