// Message records from what a pass failed on, and from the roots that are left. A name is given as its operator number.
// Leans on levels (failures), buffers, nodes, ops and words; specs/Records says which record a failure has.
ghost use Rattle.std.specs.Prelude.{◌≡◌, ◌+◌, ◌*◌, ◌≤◌, length};
ghost use Rattle.words.specs.Records.{message_number, laid_at};
ghost use Rattle.parse.specs.Records.{Within, span_record, name_record, host_at, math_record, open_record, mismatch_record, unclosed_record};
ghost use Rattle.parse.specs.Records.{Named, record_for};
ghost use Rattle.molang.specs.Message.{message_record, multiple_roots};
ghost use Rattle.levels.specs.declared.failure.Fault.TheVariants.{Failed, Mismatched, Unclosed as Unclosing, PointerFailed};
ghost use Rattle.parse.specs.Reports.{CanReport, Reported, CanReportTwo, TwoReported, CanMeasure, Measured, CanReportRoots};
ghost use Rattle.parse.specs.Reports.{RootsReported};

use buffers::emit::{emit, tree_of};
use levels::failure::{Failure, Mismatch, Unclosed};
use nodes::{children, slots};
use ops::closer_of;
use words::extent::{Extent, of_tree};
use words::fields;
use words::records::{Message, Record, put};

// A message at the span from one slot's start to another's end. A failure names slots of the store (`Named`), here and up to `record_of`.
fn spanning(work: &[u32], message: Message, from: u32, to: u32) -> Record
    requires { Within work.now from × Within work.now to }
    ensures { result ≡ span_record work.now (message_number message) from to }
{
    Record::new(
        message,
        slots::start_of(work, from),
        slots::end_of(work, to),
    )
}

// A message at a slot's span, with no argument.
fn at_slot(work: &[u32], message: Message, s: u32) -> Record
    requires { Within work.now s }
    ensures { result ≡ span_record work.now (message_number message) s s }
{
    spanning(work, message, s, s)
}

// A message over two slots that names the operator of a third.
fn naming(work: &[u32], message: Message, from: u32, to: u32, named: u32) -> Record
    requires { Within work.now from × Within work.now to × Within work.now named }
    ensures { result ≡ name_record work.now (message_number message) from to named }
{
    spanning(work, message, from, to).naming(slots::operator_of(work, named), 0)
}

// The payload value of a slot if it is a host math function's, else 0.
fn host_value(work: &[u32], s: u32) -> u32
    requires { Within work.now s }
    ensures { result ≡ host_at work.now s }
{
    let token = slots::token_of(work, s);
    if fields::variant(token.operator) != fields::HOST_MATH {
        return 0;
    }
    token.value
}

// A message that names a math function.
fn naming_math(work: &[u32], message: Message, s: u32) -> Record
    requires { Within work.now s }
    ensures { result ≡ math_record work.now (message_number message) s }
{
    at_slot(work, message, s).naming(slots::operator_of(work, s), host_value(work, s))
}

// The section of an opener is not closed.
fn not_closed(work: &[u32], opener: u32) -> Record
    requires { Within work.now opener }
    ensures { result ≡ open_record work.now opener }
{
    let op = slots::operator_of(work, opener);
    at_slot(work, Message::SectionNotClosed, opener).naming(closer_of(op), op)
}

// The first record of a closer that does not match.
fn mismatched(work: &[u32], m: Mismatch) -> Record
    requires { Within work.now m.opener × Within work.now m.closer }
    ensures { result ≡ mismatch_record work.now m }
{
    let op = slots::operator_of(work, m.opener);
    spanning(work, Message::ClosingMismatch, m.opener, m.closer)
        .naming(m.start, op)
        .and(closer_of(op), slots::operator_of(work, m.closer), m.index)
}

// The first record of a section with no closer.
fn unclosed(work: &[u32], u: Unclosed) -> Record
    requires { Within work.now u.inner }
    ensures { result ≡ unclosed_record work.now u }
{
    let op = slots::operator_of(work, u.inner);
    at_slot(work, Message::NoClosingSymbol, u.inner)
        .naming(u.start, op)
        .and(closer_of(op), 0, 0)
}

// The record of a failure.
fn record_of(work: &[u32], failure: Failure, source: u32) -> Record
    requires { Named work.now failure }
    ensures { result ≡ record_for work.now source failure }
{
    match failure {
        Failure::ComplexMustEndWithSemicolon(s) => {
            at_slot(work, Message::ComplexMustEndWithSemicolon, s)
        }
        Failure::ComplexWithoutTokens => {
            Record::new(Message::ComplexMustEndWithSemicolon, 0, source)
        }
        Failure::LeadingMemberAccessor(s) => at_slot(work, Message::LeadingMemberAccessor, s),
        Failure::EmptyParameterList(s, to) => {
            naming(work, Message::EmptyParameterList, s, to, s)
        }
        Failure::MathAtEnd(s) => naming_math(work, Message::MathAtEnd, s),
        Failure::MathWithoutParenthesis(s) => {
            naming_math(work, Message::MathWithoutParenthesis, s)
        }
        Failure::LeadingSemicolon(s) => at_slot(work, Message::LeadingSemicolon, s),
        Failure::EmptyArrayIndex(s, to) => spanning(work, Message::EmptyArrayIndex, s, to),
        Failure::BinaryAtEnd(s) => naming(work, Message::BinaryAtEnd, s, s, s),
        Failure::NegateWithoutOperand(s) => at_slot(work, Message::NegateWithoutOperand, s),
        Failure::NotWithoutOperand(s) => at_slot(work, Message::NotWithoutOperand, s),
        Failure::UnknownOperation(s, before) => {
            naming(work, Message::UnknownOperation, s, s, before)
        }
        Failure::UnaryWithoutOperand(s) => naming(work, Message::UnaryWithoutOperand, s, s, s),
        Failure::TernaryWithoutOperands(s) => {
            naming(work, Message::TernaryWithoutOperands, s, s, s)
        }
    }
}

// Writes the record of a failure to the front of the message buffer. `fill` has what it and those below ask: `CanFill` says it by cases.
pub fn report(work: &[u32], messages: &mut [u32], failure: Failure, source: u32)
    requires { CanReport work.now messages.old source (Err (Failed failure)) }
    ensures { Reported work.now messages.old source (Err (Failed failure)) messages.new }
{
    put(messages, 0, record_of(work, failure, source));
}

// Message 1 over the whole source, if no root is left.
pub fn no_roots(messages: &mut [u32], at: usize, source: u32)
    requires { at + 8 ≤ length messages.old }
    ensures { messages.new ≡ laid_at at (message_record (multiple_roots 0 source 0)) messages.old }
{
    put(messages, at, Record::new(Message::MultipleRoots, 0, source));
}

// Writes the record of a failed pointer pass, and that no root is left.
pub fn report_pointer(work: &[u32], messages: &mut [u32], failure: Failure, source: u32)
    requires { CanReport work.now messages.old source (Err (PointerFailed failure)) }
    ensures { Reported work.now messages.old source (Err (PointerFailed failure)) messages.new }
{
    report(work, messages, failure, source);
    no_roots(messages, fields::RECORD_WORDS, source);
}

// Writes the two records of a closer that does not match.
pub fn report_mismatch(work: &[u32], messages: &mut [u32], m: Mismatch)
    requires { CanReportTwo work.now messages.old (Err (Mismatched m)) }
    ensures { TwoReported work.now messages.old (Err (Mismatched m)) messages.new }
{
    put(messages, 0, mismatched(work, m));
    put(messages, fields::RECORD_WORDS, not_closed(work, m.outer));
}

// Writes the two records of sections that are not closed.
pub fn report_unclosed(work: &[u32], messages: &mut [u32], u: Unclosed)
    requires { CanReportTwo work.now messages.old (Err (Unclosing u)) }
    ensures { TwoReported work.now messages.old (Err (Unclosing u)) messages.new }
{
    put(messages, 0, unclosed(work, u));
    put(messages, fields::RECORD_WORDS, not_closed(work, u.outer));
}

// The extent of the first tree of those linked from the slot `first` on, which are laid out as tree words for it. The first and the last
// root that `report_roots` is given are such slots.
fn extent_of(work: &mut [u32], first: u32, n: usize) -> Extent
    requires { CanMeasure work.old first n }
    ensures { Measured work.old first n result work.new }
{
    let to = tree_of(n);
    let nodes = emit(work, first, to, slots::stack_of(n));
    let end = to + fields::NODE_WORDS * nodes;
    of_tree(&work[to..end])
}

// Message 1 over several roots, linked from the slot `head` on: from where the first one's extent starts to where the last
// one's ends.
pub fn report_roots(work: &mut [u32], messages: &mut [u32], head: u32, n: usize)
    requires { CanReportRoots work.old messages.old head n }
    ensures { RootsReported work.old messages.old head n work.new messages.new }
{
    let roots = children::count_chain(work, head);
    let tail = children::last_of_chain(work, head);
    let starts = extent_of(work, head, n);
    let ends = extent_of(work, tail, n);
    put(
        messages,
        0,
        Record::new(Message::MultipleRoots, starts.start, ends.end).naming(roots, 0),
    );
}
