// Emission: the records of the walk, one word for a node, become the tree words in the front of the caller's buffer. The token of a node is
// read from the list only here. Leans on ops and words.
ghost use Rattle.std.specs.Prelude.{◌≡◌, ◌+◌, ◌-◌, ◌≤◌, length, drop};
ghost use Rattle.molang.specs.Parse.{in_front};
ghost use Rattle.words.specs.Records.{laid_at};
ghost use Rattle.scan.specs.Records.{token_place, closer_place, children_of, form_of, is_section};
ghost use Rattle.scan.specs.Emit.{renamed_words, label_words, words_of_record, words_of_records, IsPlaced, CanEmitRecords};

use ops::op;
use words::fields;
use words::tokens::TokenWords;

// Where the token of a record stands in the list.
fn place(w: u32) -> usize
    ensures { result ≡ token_place w }
{
    fields::wide(w % 32768)
}

// Whether the record is a closed section's.
fn is_section(w: u32) -> bool
    ensures { result ≡ is_section w }
{
    0x7fff_ffff < w
}

// Where the token stands with which the node closes.
fn closer(w: u32) -> usize
    ensures { result ≡ closer_place w }
{
    if is_section(w) {
        return fields::wide(w / 32768 % 32768);
    }
    fields::wide(w % 32768)
}

// How many children the node has.
fn children(w: u32) -> u32
    ensures { result ≡ children_of w }
{
    if is_section(w) {
        return w / 0x4000_0000 % 2;
    }
    w / 262_144
}

// The form of the node's label.
fn form(w: u32) -> u32
    ensures { result ≡ form_of w }
{
    if is_section(w) {
        return 0;
    }
    w / 32768 % 8
}

// The words of a token under another operator, which is below 256.
fn renamed(token: TokenWords, op: u32) -> TokenWords
    ensures { result ≡ renamed_words op token }
{
    TokenWords {
        operator: fields::with_operator(token.operator, op),
        ..token
    }
}

// The words of a node's label by its form: the token as it is, a plus made of a minus, the minus that it leaves, a statement or a list of
// them, an array.
fn label(token: TokenWords, form: u32) -> TokenWords
    ensures { result ≡ label_words form token }
{
    match form {
        0 => token,
        1 => renamed(token, op::ADD),
        2 => token.bare(op::NEGATE),
        3 => token.bare(op::SEMICOLON),
        _ => renamed(token, op::ARRAY),
    }
}

// Writes the seven words of a record's node to the tree buffer from `to` on. `emit` has room for them, and the record's places.
fn put(list: &[u32], tree: &mut [u32], w: u32, to: usize)
    requires { IsPlaced list.now w × (to + 7 ≤ length tree.old) }
    ensures { tree.new ≡ laid_at to (words_of_record list.now w) tree.old }
{
    let token = label(TokenWords::at(list, place(w)), form(w));
    let end = closer(w) + fields::END_FIELD;
    let close = fields::close_word(list[end]);
    token.lay_node(tree, to, children(w), close);
}

// The records from `from` on, up to the end of the work buffer, become the front of the tree buffer; gives back how many they are.
// `parse`'s `read` calls it with the records of a text's tree.
pub(crate) fn emit(list: &[u32], work: &[u32], tree: &mut [u32], from: usize) -> usize
    requires { CanEmitRecords list.now work.now tree.old from }
    ensures value { result ≡ length work.now - from }
    ensures tree_after { tree.new ≡ in_front (words_of_records list.now (drop from work.now)) tree.old }
{
    for r in from..work.len() {
        put(list, tree, work[r], fields::NODE_WORDS * (r - from));
    }
    work.len() - from
}
