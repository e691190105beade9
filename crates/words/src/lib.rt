// A word of 64 bits in eight lent bytes, highest or lowest byte first. Wherever a load or a store is inlined, the compiler makes one
// instruction of it, and one more that swaps the bytes of a word that lies highest first.
#![tactic(auto)]

ghost use Rattle.std.specs.Prelude.{◌≡◌, ◌∷◌, [], reverse, ◌+◌, ◌%◌, ◌≤◌, ◌<◌, length, set};
ghost use Rattle.std.proofs.lemmas.List.Edits.{sets};
ghost use Rattle.words.specs.Bytes.{number_of, bytes_of, bytes_from};

// The number of eight bytes from a place on, highest first. A slice and a place, here and below: the callers have a whole line or buffer,
// of different lengths, and a word's place in it.
pub fn load_word(bytes: &[u8], at: usize) -> u64
    requires { at + 8 ≤ length bytes.now }
    ensures { result ≡ number_of (bytes_from 8 at bytes.now) }
{
    u64::from_be_bytes(bytes[at..at + 8].try_into().unwrap())
}

// The number of eight bytes from a place on, lowest first.
pub fn load_little(bytes: &[u8], at: usize) -> u64
    requires { at + 8 ≤ length bytes.now }
    ensures { result ≡ number_of (reverse (bytes_from 8 at bytes.now)) }
{
    number(
        bytes[at + 7],
        bytes[at + 6],
        bytes[at + 5],
        bytes[at + 4],
        bytes[at + 3],
        bytes[at + 2],
        bytes[at + 1],
        bytes[at],
    )
}

// The number of eight bytes, highest first. By hand: of words that `from_le_bytes` loads the compiler takes two together in half of their
// folds, and `cells::checks::of_eight` has 216 instructions in place of 165.
fn number(a: u8, b: u8, c: u8, d: u8, e: u8, f: u8, g: u8, h: u8) -> u64
    ensures { result ≡ number_of (a ∷ b ∷ c ∷ d ∷ e ∷ f ∷ g ∷ h ∷ []) }
{
    ((a as u64) << 56)
        | (((b as u64) << 48)
            | (((c as u64) << 40)
                | (((d as u64) << 32)
                    | (((e as u64) << 24)
                        | (((f as u64) << 16) | (((g as u64) << 8) | (h as u64)))))))
}

// Lays eight bytes from a place on, highest first.
pub fn store_word(bytes: &mut [u8], at: usize, word: u64)
    requires { at + 8 ≤ length bytes.old }
    ensures { bytes.new ≡ sets bytes.old at (bytes_of 8 word) }
{
    bytes[at..at + 8].copy_from_slice(&word.to_be_bytes());
}

// Lays one byte. It stays for its clause, by which `with_chip` and `pattern_of` are proved.
pub fn store_byte(bytes: &mut [u8], at: usize, byte: u8)
    requires { at < length bytes.old }
    ensures { bytes.new ≡ set bytes.old at byte }
{
    bytes[at] = byte;
}

// The lowest byte of a number.
pub fn low(x: u64) -> u8
    ensures { result ≡ x % 256 }
{
    (x % 256) as u8
}
