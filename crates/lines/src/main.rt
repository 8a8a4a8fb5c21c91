// The program `lines`: runs every line of document 01's 'Lists and their trees' through the entries and writes the text of each line,
// whether it is answered as it says, and the totals last. The table is the one that the theorem of molang has: the definition answers every
// line as it says, and the entries answer as the definition does. So this program tests the compiled code. What it writes is compared with
// the file stdout; of its functions, which are all private, it is proved that they are safe. After a write that failed it writes no more.
// Leans on table (the lines and their text), verdicts (whether a line is answered as it says) and molang (the marks).
#![tactic(auto)]

ghost use Rattle.std.specs.Prelude.{◌≤◌, length};

use molang::lines::TREE;
use table::next_mark;
use table::said::table;
use verdicts::{Difference, run_line};

// Writes whether a line is answered as it says.
fn say_verdict<P: Print>(rt: &P, verdict: Result<(), Difference>) -> std::io::Result<()> {
    match verdict {
        Ok(()) => rt.write_all(b": ok\n"),
        Err(Difference::Answer) => rt.write_all(b": another answer\n"),
        Err(Difference::Words) => rt.write_all(b": other words\n"),
    }
}

// Where the line of text that starts at `from` ends. `run` gives the index that `behind` gave.
fn line_end(text: &[u8], from: usize) -> usize
    requires { from ≤ length text.now }
    ensures { (from ≤ result) × (result ≤ length text.now) }
{
    match text[from..].iter().position(|byte| *byte == b'\n') {
        Some(length) => from + length,
        None => text.len(),
    }
}

// Where the next line of text starts, behind the byte that ends one.
fn behind(text: &[u8], end: usize) -> usize
    ensures { result ≤ length text.now }
{
    if end < text.len() {
        return end + 1;
    }
    text.len()
}

// Writes a line: its text, and whether it is answered as it says.
fn say_line<P: Print>(rt: &P, text: &[u8], verdict: Result<(), Difference>) -> std::io::Result<()> {
    rt.write_all(text)?;
    say_verdict(rt, verdict)
}

fn say_totals<P: Print>(rt: &P, count: u64, others: u64) -> std::io::Result<()> {
    rt.print(count)?;
    rt.write_all(b" lines, ")?;
    rt.print(others)?;
    rt.write_all(b" differ\n")
}

// Runs every line of the table; each has a line of text.
fn run<P: Print>(rt: &P, numbers: &[u32], text: &[u8]) -> std::io::Result<()> {
    let mut start = 0usize;
    let mut from = 0usize;
    let mut count = 0u64;
    let mut others = 0u64;
    while start < numbers.len() {
        let end = next_mark(numbers, start + 1, TREE);
        let verdict = run_line(&numbers[start..end]);
        let stop = line_end(text, from);
        say_line(rt, &text[from..stop], verdict)?;
        from = behind(text, stop);
        others += u64::from(verdict.is_err());
        count += 1;
        start = end;
    }
    say_totals(rt, count, others)
}

fn main(rt: HostRuntime) {
    let table = table();
    let numbers = table.numbers;
    let text = table.text;
    if run(&rt, &numbers, &text).is_err() {
        let _ = rt.eprintln("lines: a write failed, and the text is not whole");
    }
}
