// The words of bytes, little-endian. Leans on nothing; specs/Lists says which words bytes are.
ghost use Rattle.std.specs.Prelude.{◌≡◌, ◌+◌, ◌*◌, ◌^◌, length};
ghost use Rattle.listing.specs.Lists.{words_in};

// The word of four bytes, the lowest first.
pub fn word_of(a: u8, b: u8, c: u8, d: u8) -> u32
    ensures { result ≡ a + 2 ^ 8 * b + 2 ^ 16 * c + 2 ^ 24 * d }
{
    u32::from_le_bytes([a, b, c, d])
}

// Fills words with those of the bytes. `treelist` and `everylist` keep four bytes to each word of theirs.
pub fn words_of(bytes: &[u8], words: &mut [u32])
    requires { length bytes.now ≡ 4 * length words.old }
    ensures { words.new ≡ words_in bytes.now }
{
    for i in 0..words.len() {
        let at = 4 * i;
        words[i] = word_of(bytes[at], bytes[at + 1], bytes[at + 2], bytes[at + 3]);
    }
}
