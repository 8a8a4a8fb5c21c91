// The writing of a plain tree: each operator between or before its operands, copied as it came, a section's closer where the section
// closes, and added pairs where an operand needs them. `write_node` and `write_operand` call each other over the preorder words, the
// remaining node count falling; a node without children is written by `write_leaf`. A node's first child, that one's first child and so on
// stand in a row in the words: `write_node` goes down the row to the leaf and writes it from there up, and calls `write_operand` for each
// right operand on the way that is no leaf, so no other operand takes call stack. Each gives back the part of the words that its tree fills,
// so the next operand starts right after it. A pen says where in the list writing stands, and takes the tree's spans in, so that a pair knows
// its operand's extent when the operand is written. The words are those of a tree that `judge` found plain, and `fill` has compared the list's
// length with the tokens that are written of it: what the functions ask of both comes from there. Leans on plain (seats), ops and words.
ghost use Rattle.std.specs.Prelude.{◌≡◌, true, ◌+◌, ◌-◌, ◌≤◌, length, drop, get_or};
ghost use Rattle.molang.specs.Words.{low_of};
ghost use Rattle.words.specs.Extents.{wider};
ghost use Rattle.words.specs.Records.{laid_at};
ghost use Rattle.words.specs.Tokens.{five_words, node_length};
ghost use Rattle.shape.specs.Shaped.{count_index, first_five};
ghost use Rattle.write.specs.Spelling.{spanning_words, closer_words, pair_opener, pair_closer, nothing_seen, seen_with};
ghost use Rattle.write.specs.Spelling.{node_tokens, operand_of, filled_words, node_written, operand_written, Room};
ghost use Rattle.write.specs.Reading.{children_at};
ghost use Rattle.write.specs.Seats.{if_true};
ghost use Rattle.write.specs.Spine.{has_pair, front_of, front_at, with_pair, span_taken, Opens, Spine};

use crate::plain::{Seat, is_bare, is_paired, is_spared, seat_of_first, seat_of_right};
use ops::op;
use words::extent::{Extent, widened};
use words::fields;
use words::tokens::TokenWords;

// The extent of nothing goes from the greatest start that a word holds to 0, and every span widens that.
const NOTHING: Extent = Extent {
    start: fields::KIND - 1,
    end: 0,
};

// Where writing stands: the next of the list's words, and the extent of the spans that have been taken in.
#[derive(Clone, Copy)]
pub struct Pen {
    to: usize,
    seen: Extent,
}

// A token of op over a span, with payload 0.
fn spanning(op: u32, start: u32, end: u32) -> TokenWords
    ensures { result ≡ spanning_words op start end }
{
    TokenWords {
        operator: fields::operator_word(op),
        start: fields::start_word(start),
        end: fields::end_word(end),
        upper: fields::upper_word(0),
        lower: fields::lower_word(0),
    }
}

impl Pen {
    // A pen that has seen nothing.
    pub fn new(to: usize) -> Pen
        ensures to { result.to ≡ to }
        ensures seen { result.seen ≡ nothing_seen }
    {
        Pen { to, seen: NOTHING }
    }

    // Puts a token's five words into the list, and moves behind them.
    pub fn put(&mut self, list: &mut [u32], token: TokenWords)
        requires { self.old.to + 5 ≤ length list.old }
        ensures list_after { list.new ≡ laid_at self.old.to (five_words token) list.old }
        ensures to_after { self.new.to ≡ self.old.to + 5 }
        ensures seen_after { self.new.seen ≡ self.old.seen }
    {
        token.lay(list, self.to);
        self.to += fields::TOKEN_WORDS;
    }

    // The token of the node that the words open with, as it came.
    #[tactic(auto, unfolding(shape::specs::Shaped::first_five))]
    fn put_token(&mut self, words: &[u32], list: &mut [u32])
        requires { (5 ≤ length words.now) × (self.old.to + 5 ≤ length list.old) }
        ensures list_after { list.new ≡ laid_at self.old.to (first_five words.now) list.old }
        ensures to_after { self.new.to ≡ self.old.to + length (first_five words.now) }
        ensures seen_after { self.new.seen ≡ self.old.seen }
    {
        self.put(list, TokenWords::at(words, 0));
    }

    // The closer of the node that the words open with, if it is a bracket.
    #[tactic(auto, unfolding(crate::specs::Spelling::closer_words, molang::specs::Operator::is_bracket))]
    fn put_closer(&mut self, words: &[u32], list: &mut [u32])
        requires { (node_length ≤ length words.now) × (self.old.to + length (closer_words words.now) ≤ length list.old) }
        ensures list_after { list.new ≡ laid_at self.old.to (closer_words words.now) list.old }
        ensures to_after { self.new.to ≡ self.old.to + length (closer_words words.now) }
        ensures seen_after { self.new.seen ≡ self.old.seen }
    {
        if fields::operator(words[0]) == op::LEFT_PARENTHESIS {
            let close = words[fields::CLOSE_FIELD];
            self.put(list, spanning(op::RIGHT_PARENTHESIS, close, close));
        }
    }

    // An added pair over what has been seen, an operand: the opener into the five words that were kept free at `at`, the closer, which
    // carries the end twice, behind the operand.
    fn put_pair(&mut self, at: usize, list: &mut [u32])
        requires { (at + 5 ≤ length list.old) × (self.old.to + 5 ≤ length list.old) }
        ensures list_after { list.new ≡ laid_at self.old.to (pair_closer self.old.seen.end) (laid_at at (pair_opener self.old.seen.start self.old.seen.end) list.old) }
        ensures to_after { self.new.to ≡ self.old.to + 5 }
        ensures seen_after { self.new.seen ≡ self.old.seen }
    {
        let Extent { start, end } = self.seen;
        spanning(op::LEFT_PARENTHESIS, start, end).lay(list, at);
        self.put(list, spanning(op::RIGHT_PARENTHESIS, end, end));
    }

    // Takes a span in.
    fn widen(&mut self, start: u32, end: u32)
        ensures to_after { self.new.to ≡ self.old.to }
        ensures seen_after { self.new.seen ≡ wider self.old.seen start end }
    {
        self.seen = widened(self.seen, start, end);
    }
}

// Writes the node that the words open with, which has no children, and takes its span in; gives back its words. Both callers have tested
// that it has none. In a tree of binary operators every second node is a leaf, and each is written here without a call that goes deeper.
fn write_leaf<'a>(words: &'a [u32], list: &mut [u32], pen: &mut Pen) -> &'a [u32]
    requires { Room node_tokens words.now list.old pen.old.to × (low_of (get_or words.now count_index 0) ≡ 0) }
    ensures result_value { result.now ≡ filled_words words.now }
    ensures list_after { list.new ≡ laid_at pen.old.to (node_written words.now) list.old }
    ensures to_after { pen.new.to ≡ pen.old.to + length (node_written words.now) }
    ensures seen_after { pen.new.seen ≡ seen_with pen.old.seen words.now }
{
    pen.widen(words[fields::START_FIELD], words[fields::END_FIELD]);
    pen.put_token(words, list);
    pen.put_closer(words, list);
    &words[..fields::NODE_WORDS]
}

// Whether the first child of the node at `at` gets an added pair. The child stands behind the node. (`is_paired` would want its seat first,
// of leaves too, and writing takes 1.25 times as long.)
#[tactic(auto, unfolding(crate::specs::Spine::has_pair, crate::specs::Seats::is_paired))]
fn has_pair(words: &[u32], at: usize) -> bool
    requires { at + node_length + node_length ≤ length words.now }
    ensures { result ≡ has_pair words.now at }
{
    let first = at + fields::NODE_WORDS;
    let op = fields::operator(words[first]);
    if !is_bare(op, fields::low(words[first + fields::COUNT_FIELD])) {
        return false;
    }
    let seat = seat_of_first(
        fields::operator(words[at]),
        fields::low(words[at + fields::COUNT_FIELD]),
    );
    !is_spared(seat, op)
}

// The words of the list that a node of so many children puts before those of its first child: its token, if it has one child, and the
// opener of an added pair.
#[tactic(auto, unfolding(crate::specs::Spine::front_of))]
fn front_of(children: u32, paired: bool) -> usize
    ensures { result ≡ front_of children paired }
{
    match (children, paired) {
        (1, true) => 10,
        (1, false) | (_, true) => 5,
        (_, false) => 0,
    }
}

// Those of the node at `at`.
fn front_at(words: &[u32], at: usize) -> usize
    requires { at + node_length + node_length ≤ length words.now }
    ensures { result ≡ front_at words.now at }
{
    let children = fields::low(words[at + fields::COUNT_FIELD]);
    front_of(children, has_pair(words, at))
}

// Where the first children end: the leaf's place in the words, and how many words of the list stand before those of the leaf.
#[derive(Clone, Copy)]
pub struct Descent {
    node: usize,
    front: usize,
}

// Goes down the first children, which stand in a row. (No `for`: the row ends at its leaf, and the words go on behind that.)
fn descend(words: &[u32]) -> Descent
    requires { Opens words.now }
    ensures { Spine words.now result.node result.front × (children_at words.now result.node ≡ 0) }
{
    let mut node = 0usize;
    let mut front = 0usize;
    let mut children = fields::low(words[fields::COUNT_FIELD]);
    while children != 0 {
        front += front_at(words, node);
        node += fields::NODE_WORDS;
        children = fields::low(words[node + fields::COUNT_FIELD]);
    }
    Descent { node, front }
}

// Adds the pair of the first child of the node at `node`, if it gets one, and says whether it does. The child is what the pen has seen, and
// its words begin at `at`.
fn pair_first(words: &[u32], node: usize, at: usize, list: &mut [u32], pen: &mut Pen) -> bool
    requires node_length_in_bounds { node + node_length + node_length ≤ length words.now }
    requires le_at { has_pair words.now node ≡ true → (5 ≤ at) × (at ≤ length list.old) × (pen.old.to + 5 ≤ length list.old) }
    ensures value { result ≡ has_pair words.now node }
    ensures list_after { list.new ≡ with_pair (has_pair words.now node) pen.old.seen at pen.old.to list.old }
    ensures to_after { pen.new.to ≡ pen.old.to + if_true (has_pair words.now node) 5 }
    ensures seen_after { pen.new.seen ≡ pen.old.seen }
{
    let paired = has_pair(words, node);
    if paired {
        pen.put_pair(at - fields::TOKEN_WORDS, list);
    }
    paired
}

// Comes up to the node at `node`. Its first child is what the pen has seen, written from `place` on: it gets its pair, if it gets one, and
// the node's own span is taken in. Gives back where the node's words begin.
fn rise(words: &[u32], node: usize, place: usize, list: &mut [u32], pen: &mut Pen) -> usize
    requires node_length_in_bounds { (node + node_length + node_length ≤ length words.now) × (front_at words.now node ≤ place) }
    requires le_place { has_pair words.now node ≡ true → (5 ≤ place) × (place ≤ length list.old) × (pen.old.to + 5 ≤ length list.old) }
    ensures value { result ≡ place - front_at words.now node }
    ensures list_after { list.new ≡ with_pair (has_pair words.now node) pen.old.seen place pen.old.to list.old }
    ensures to_after { pen.new.to ≡ pen.old.to + if_true (has_pair words.now node) 5 }
    ensures seen_after { pen.new.seen ≡ span_taken pen.old.seen (drop node words.now) }
{
    let paired = pair_first(words, node, place, list, pen);
    pen.widen(
        words[node + fields::START_FIELD],
        words[node + fields::END_FIELD],
    );
    let children = fields::low(words[node + fields::COUNT_FIELD]);
    place - front_of(children, paired)
}

// Puts the token of the node that the words open with, which has one child, before the child's words, at `place`, and a bracket's closer
// behind them.
#[tactic(auto, unfolding(shape::specs::Shaped::first_five))]
fn put_round(words: &[u32], place: usize, list: &mut [u32], pen: &mut Pen)
    requires node_length_in_bounds { (node_length ≤ length words.now) × (place + 5 ≤ length list.old) }
    requires words_in_bounds { pen.old.to + length (closer_words words.now) ≤ length list.old }
    ensures list_after { list.new ≡ laid_at pen.old.to (closer_words words.now) (laid_at place (first_five words.now) list.old) }
    ensures to_after { pen.new.to ≡ pen.old.to + length (closer_words words.now) }
    ensures seen_after { pen.new.seen ≡ pen.old.seen }
{
    TokenWords::at(words, 0).lay(list, place);
    pen.put_closer(words, list);
}

// Writes the tree that the words open with, and takes its spans in. The first children are gone down to the leaf, and written from there
// up: a node's first child is written, and its words begin at `place`, when the node's turn comes. Gives back the words that it fills. What
// the row has seen is in a pen of its own, which stays in registers along the row: the lent one has its numbers only round the call.
// (No `for` over the row: it would count nodes from the last one up and multiply each by the words of a node.)
#[cycle(write_node_write_operand)]
pub fn write_node<'a>(words: &'a [u32], list: &mut [u32], pen: &mut Pen) -> &'a [u32]
    requires { Room node_tokens words.now list.old pen.old.to }
    ensures result_value { result.now ≡ filled_words words.now }
    ensures list_after { list.new ≡ laid_at pen.old.to (node_written words.now) list.old }
    ensures to_after { pen.new.to ≡ pen.old.to + length (node_written words.now) }
    ensures seen_after { pen.new.seen ≡ seen_with pen.old.seen words.now }
{
    let outer = pen.seen;
    let end = descend(words);
    let mut node = end.node;
    let mut place = pen.to + end.front;
    let mut row = Pen::new(place);
    let mut next = node + write_leaf(&words[node..], list, &mut row).len();
    while 0 < node {
        node -= fields::NODE_WORDS;
        place = rise(words, node, place, list, &mut row);
        let own = &words[node..];
        if fields::low(own[fields::COUNT_FIELD]) != 2 {
            put_round(own, place, list, &mut row);
            continue;
        }
        row.put_token(own, list);
        let below = &words[next..];
        if fields::low(below[fields::COUNT_FIELD]) == 0 {
            next += write_leaf(below, list, &mut row).len();
            continue;
        }
        let seat = seat_of_right(fields::operator(own[0]));
        *pen = row;
        next += write_operand(below, seat, list, pen).len();
        row = *pen;
    }
    pen.to = row.to;
    pen.seen = widened(outer, row.seen.start, row.seen.end);
    &words[..next]
}

// Writes the tree that the words open with as an operand in its seat, and takes its spans in; gives back the words that it fills. An added
// pair covers the operand's extent, which is known when the operand is written: the words of its opener are kept free until then, and the pen
// starts anew for the operand. Its extent is taken into what was seen before.
#[cycle(write_node_write_operand)]
fn write_operand<'a>(words: &'a [u32], seat: Seat, list: &mut [u32], pen: &mut Pen) -> &'a [u32]
    requires { Room (operand_of seat) words.now list.old pen.old.to }
    ensures result_value { result.now ≡ filled_words words.now }
    ensures list_after { list.new ≡ laid_at pen.old.to (operand_written seat words.now) list.old }
    ensures to_after { pen.new.to ≡ pen.old.to + length (operand_written seat words.now) }
    ensures seen_after { pen.new.seen ≡ seen_with pen.old.seen words.now }
{
    let children = fields::low(words[fields::COUNT_FIELD]);
    if children == 0 {
        return write_leaf(words, list, pen);
    }
    if !is_paired(seat, fields::operator(words[0]), children) {
        return write_node(words, list, pen);
    }
    let outer = *pen;
    *pen = Pen::new(outer.to + fields::TOKEN_WORDS);
    let operand = write_node(words, list, pen);
    pen.put_pair(outer.to, list);
    pen.seen = widened(outer.seen, pen.seen.start, pen.seen.end);
    operand
}
