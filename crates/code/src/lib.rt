// The code inside a chip: CRC-8 with the polynomial x^8 + x^2 + x + 1 (document 01, "The code inside a chip"), and what a chip tells of a
// word that it sends with Enable clear (document 02, Req 02).
#![tactic(auto)]

ghost use Rattle.std.specs.Prelude.{◌≡◌, true, ◌*◌, ◌/◌, ◌%◌, ◌≤◌, ◌<◌, unwrap_or, IfSome};
ghost use Rattle.std.specs.Int.Count.{count_trailing_zeros};
ghost use Rattle.code.specs.Code.{cell, times_x, syndrome_of, check_of, position_of, bit_at, mended, mended_word, status_at, status_of, is_beyond};
ghost use Rattle.code.specs.Fold.{Folded, sums};
ghost use Rattle.code.specs.Walks.{each_byte, mark_if};

// What a chip tells of a word sent with Enable clear, in document 02's words. Sound: it holds a codeword. Mended: one bit was inverted.
// Beyond mending: it holds no codeword, and nothing was inverted.
#[derive(Clone, Copy, PartialEq, Eq)]
pub enum Status {
    Sound,
    Mended,
    Beyond,
}

// Nine bytes after mending: the word and the check byte, and their status.
#[derive(Clone, Copy, PartialEq, Eq)]
pub struct Mending {
    pub word: u64,
    pub check: u8,
    pub status: Status,
}

// The check byte of a word.
#[tactic(auto, unfolding(crate::specs::Fold::up_x, crate::specs::Code::times_x))]
pub fn check_byte(word: u64) -> u8
    ensures { result ≡ check_of word }
{
    let short = fold::<16, 2, 4>(fold::<16, 2, 4>(fold40(word)));
    fold::<8, 1, 2>(fold::<8, 1, 2>(short)) as u8
}

// The syndrome of a word and a check byte.
pub fn syndrome(word: u64, check: u8) -> u8
    ensures { result ≡ syndrome_of (cell word check) }
{
    check_byte(word) ^ check
}

// The powers of x at which eight walks begin, one in each byte: x^0 in the lowest, then x^9, and so on to x^63.
const STARTS: u64 = 0x8a76_6467_5154_0e01;

// The lowest bit of each of eight bytes.
const ONE_EACH: u64 = 0x0101_0101_0101_0101;

// The lower seven bits of each.
const LOW_EACH: u64 = 0x7f7f_7f7f_7f7f_7f7f;

// The position, from 0 to 71, of a syndrome; 255 stands for no position, a form that document 01 names. The positions' syndromes are the
// powers of x from x^0 up, each the one before times x, and are walked through (document 02, Req 03). Eight walks go side by side in the
// bytes of a number, walk j from position 9j up, so that nine steps go through all 72. No step branches on what it found, since such a
// branch is mispredicted: each adds it to `found`, step i in bit i of the walk's byte. A byte has no bit for the ninth step, which is asked
// by itself.
pub fn position(syndrome: u8) -> u8
    ensures { result ≡ position_of syndrome }
{
    let mut powers = STARTS;
    let mut found = 0u64;
    // By number: i is the step, and so how far its bit is moved.
    for i in 0..8u64 {
        found += walks_at(syndrome, powers) >> (7 - i);
        powers = times_x(powers);
    }
    // Bit i of byte j stands for 9j + i.
    if let Some(bit) = lowest_bit(found) {
        return 9 * (bit / 8) + bit % 8;
    }
    match lowest_bit(walks_at(syndrome, powers)) {
        Some(bit) => 9 * (bit / 8) + 8,
        None => 255,
    }
}

// The place of the lowest bit that is set, where one is.
fn lowest_bit(bits: u64) -> Option<u8>
    ensures number { unwrap_or result 64 ≡ count_trailing_zeros 64 bits }
    ensures within { IfSome result (λ i. i < 64) }
{
    if bits == 0 {
        return None;
    }
    Some(bits.trailing_zeros() as u8)
}

// The highest bit of each byte whose walk is at a syndrome: there a byte of `difference` is zero. Elsewhere its highest bit is set, or the
// sum carries into that from the lower seven; no sum carries into the next byte. `differs` has the lower seven bits set in every byte, so
// that its complement has none of them. The complement is by `^`: with `!` no proof closed, since the laws by bytes are of xors, sums and
// products.
fn walks_at(syndrome: u8, powers: u64) -> u64
    ensures { result ≡ each_byte 8 (mark_if syndrome) powers }
{
    let difference = powers ^ ((syndrome as u64) * ONE_EACH);
    let differs = ((difference & LOW_EACH) + LOW_EACH) | difference | LOW_EACH;
    differs ^ u64::MAX
}

// Eight remainders, each times x. Where x^7 moves up to x^8, the rest of the polynomial, x^2 + x + 1, stands for it.
fn times_x(powers: u64) -> u64
    ensures { result ≡ each_byte 8 times_x powers }
{
    ((powers & LOW_EACH) << 1) ^ (((powers >> 7) & ONE_EACH) * 0x07)
}

// The nine bytes after mending, whose word is document 01's M, and their status, from their syndrome. A codeword is sound, though its
// syndrome has position 255.
pub fn mend(word: u64, check: u8, syndrome: u8) -> Mending
    requires { syndrome ≡ syndrome_of (cell word check) }
    ensures word { result.word ≡ mended_word (cell word check) }
    ensures check { result.check ≡ mended (cell word check) % 256 }
    ensures status { result.status ≡ status_of (cell word check) }
{
    if syndrome == 0 {
        return Mending {
            word,
            check,
            status: Status::Sound,
        };
    }
    let place = position(syndrome);
    let status = status_at(place);
    Mending {
        word: word ^ word_bit(place),
        check: check ^ check_bit(place),
        status,
    }
}

// The status of nine bytes that are no codeword, by the position of their syndrome: 0 to 71 against 255, a form that document 01 names.
fn status_at(position: u8) -> Status
    ensures { result ≡ status_at position }
{
    match position {
        0..=71 => Status::Mended,
        _ => Status::Beyond,
    }
}

// The bit of the word at a position: none at the check byte's positions, and none for 255, which `bit_at` of its
// clause takes. By tests: with a `match` on ranges a read that mends two chips takes 6 % longer.
fn word_bit(position: u8) -> u64
    ensures { result ≡ bit_at position / 256 }
{
    if position < 8 {
        return 0;
    }
    if position < 72 {
        1 << (position - 8)
    } else {
        0
    }
}

// The bit of the check byte at a position: none at the word's positions, and none for 255.
fn check_bit(position: u8) -> u8
    ensures { result ≡ bit_at position % 256 }
{
    if position < 8 { 1 << position } else { 0 }
}

// Whether a status is beyond mending.
#[tactic(auto, unfolding(crate::specs::Code::is_beyond))]
pub fn is_beyond(status: Status) -> bool
    ensures { result ≡ is_beyond status }
{
    status == Status::Beyond
}

// A fold leaves a shorter polynomial with the same remainder. This one folds the word times x^8 at x^40, whose remainder is x^6 + x^5 + x:
// 72 bits, which `fold` can't be given.
fn fold40(word: u64) -> u64
    ensures { Folded 40 6 (word * 256) result }
{
    let h = word >> 32;
    ((word & 0xffff_ffff) << 8) ^ (h << 1) ^ (h << 5) ^ (h << 6)
}

// A fold at x^J, whose remainder is x^B + x^A + 1: that of x^16 is x^4 + x^2 + 1, and that of x^8 is x^2 + x + 1.
fn fold<const J: u32, const A: u32, const B: u32>(v: u64) -> u64
    requires small { (A ≤ B) × (B ≤ J) × (J < 64) }
    requires sum { sums J 0 A B ≡ true }
    ensures { Folded J B v result }
{
    let h = v >> J;
    (v & ((1 << J) - 1)) ^ h ^ (h << A) ^ (h << B)
}
