// A chunk of the input. Leans on step and listing (the word of four bytes); specs/Running has the definition.
ghost use Rattle.std.specs.Prelude.{◌≡◌, ◌%◌, length};
ghost use Rattle.liftcount.specs.Running.{state_of, fed};

use crate::run::{ListBuffer, MessageBuffer, Run, TreeBuffer, WorkBuffer};
use crate::step::{take_byte, take_word};
use listing::bytes::word_of;

// Bytes, one by one.
fn feed_bytes(
    run: Run,
    list: &mut ListBuffer,
    bytes: &[u8],
    tree: &mut TreeBuffer,
    again: &mut TreeBuffer,
    messages: &mut MessageBuffer,
    work: &mut WorkBuffer,
) -> Run
    ensures { state_of result list.new ≡ fed (state_of run list.old) bytes.now }
{
    let mut then = run;
    for &b in bytes {
        then = take_byte(then, list, b, tree, again, messages, work);
    }
    then
}

// Whole words, where none has begun.
fn feed_words(
    run: Run,
    list: &mut ListBuffer,
    bytes: &[u8],
    tree: &mut TreeBuffer,
    again: &mut TreeBuffer,
    messages: &mut MessageBuffer,
    work: &mut WorkBuffer,
) -> Run
    requires held_value { (run.held ≡ 0) × (length bytes.now % 4 ≡ 0) }
    ensures { state_of result list.new ≡ fed (state_of run list.old) bytes.now }
{
    let mut then = run;
    for word in bytes.chunks_exact(4) {
        let w = word_of(word[0], word[1], word[2], word[3]);
        then = take_word(then, list, w, tree, again, messages, work);
    }
    then
}

// A chunk of any length. The scratch is cleared once a chunk; most chunks are whole words, and none has begun before them.
pub fn feed(run: Run, list: &mut ListBuffer, chunk: &[u8]) -> Run
    ensures { state_of result list.new ≡ fed (state_of run list.old) chunk.now }
{
    let mut tree = [0u32; 2688];
    let mut again = [0u32; 2688];
    let mut messages = [0u32; 16];
    let mut work = [0u32; 8256];
    let held = run.held;
    if held != 0 {
        return feed_bytes(
            run,
            list,
            chunk,
            &mut tree,
            &mut again,
            &mut messages,
            &mut work,
        );
    }
    let whole = chunk.len() / 4 * 4;
    let then = feed_words(
        run,
        list,
        &chunk[..whole],
        &mut tree,
        &mut again,
        &mut messages,
        &mut work,
    );
    feed_bytes(
        then,
        list,
        &chunk[whole..],
        &mut tree,
        &mut again,
        &mut messages,
        &mut work,
    )
}
