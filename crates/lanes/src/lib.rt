// The check bytes of eight words at once, each in its lane of 16 bits. The words are as they lie in memory, loaded lowest byte first, so
// that none has its bytes swapped for it. A word is four lanes; where two words have folded their lanes, what is left of both fits one
// number, and so for four. Every step is made of shifts, masks and xors alone, so that each bit of a word goes its own way: that
// `check_bytes` meets its contract is proved by a test of each bit.
#![tactic(auto)]

ghost use Rattle.std.specs.Prelude.{◌≡◌, ◌^◌, ◌<◌};
ghost use Rattle.std.specs.Int.Bits.{bit_xor};
ghost use Rattle.code.specs.Code.{check_of};
ghost use Rattle.lanes.specs.Lanes.{lanes, swapped, up, fold_lanes, fold_pairs, fold_halves, fold_quarters, times_byte, last_folds};

// Two numbers of four lanes. Both go through the same steps side by side, so that the compiler can take them together: a function of four
// words, called for each of the two, takes a third longer.
#[derive(Clone, Copy, PartialEq, Eq)]
pub struct Pair {
    pub even: u64,
    pub odd: u64,
}

// The check bytes of eight words, each word given with its bytes in the other order: those of a, c, e and g, and those of b, d, f and h.
// Eight numbers: of an array the compiler takes two words together in half of the folds, and a write takes 3 % longer, a diagnosis 9 %.
pub fn check_bytes(a: u64, b: u64, c: u64, d: u64, e: u64, f: u64, g: u64, h: u64) -> Pair
    ensures even { result.even ≡ lanes (check_of (swapped a)) (check_of (swapped c)) (check_of (swapped e)) (check_of (swapped g)) }
    ensures odd { result.odd ≡ lanes (check_of (swapped b)) (check_of (swapped d)) (check_of (swapped f)) (check_of (swapped h)) }
{
    let p = halves(a, e, b, f);
    let q = halves(c, g, d, h);
    quarters(p, q)
}

// Two words and two others, each down to two lanes.
fn halves(a: u64, b: u64, c: u64, d: u64) -> Pair
    ensures even { result.even ≡ fold_halves (fold_pairs a) (fold_pairs b) }
    ensures odd { result.odd ≡ fold_halves (fold_pairs c) (fold_pairs d) }
{
    Pair {
        even: fold_halves(fold_pairs(a), fold_pairs(b)),
        odd: fold_halves(fold_pairs(c), fold_pairs(d)),
    }
}

// Four words and four others, each from two lanes down to its check byte.
fn quarters(p: Pair, q: Pair) -> Pair
    ensures even { result.even ≡ last_folds (fold_quarters p.even q.even) }
    ensures odd { result.odd ≡ last_folds (fold_quarters p.odd q.odd) }
{
    Pair {
        even: last_folds(fold_quarters(p.even, q.even)),
        odd: last_folds(fold_quarters(p.odd, q.odd)),
    }
}

// Four numbers, each in its lane.
pub fn pack(a: u64, b: u64, c: u64, d: u64) -> u64
    requires { (a < 2 ^ 16) × (b < 2 ^ 16) × (c < 2 ^ 16) × (d < 2 ^ 16) }
    ensures { result ≡ lanes a b c d }
{
    a | (b << 16) | (c << 32) | (d << 48)
}

// The low byte of each lane.
const LOW_BYTES: u64 = 0x00ff_00ff_00ff_00ff;

// Each lane folded at x^8.
#[tactic(auto, unfolding(crate::specs::Lanes::fold_lanes))]
fn fold_lanes(v: u64) -> u64
    ensures { result ≡ fold_lanes v }
{
    onto(v & LOW_BYTES, (v >> 8) & LOW_BYTES)
}

// The same where each lane's low byte has the higher powers.
#[tactic(auto, unfolding(crate::specs::Lanes::fold_pairs))]
fn fold_pairs(v: u64) -> u64
    ensures { result ≡ fold_pairs v }
{
    onto((v >> 8) & LOW_BYTES, v & LOW_BYTES)
}

// What each lane folds down (h), times x^8, onto what it keeps (l). The remainder of x^8 is x^2 + x + 1. Not by `times_byte`: the
// definitions of the folds have the xors in this order.
fn onto(l: u64, h: u64) -> u64
    ensures { result ≡ bit_xor (bit_xor (bit_xor l h) (up 1 h)) (up 2 h) }
{
    l ^ h ^ (h << 1) ^ (h << 2)
}

// The lower two lanes of two numbers, which have the higher powers, folded at x^32 onto the upper two. The remainder of x^32 is
// x^4 + x^2 + x.
#[tactic(auto, unfolding(crate::specs::Lanes::fold_halves))]
fn fold_halves(a: u64, b: u64) -> u64
    ensures { result ≡ fold_halves a b }
{
    let h = (a & 0x0000_0000_ffff_ffff) ^ (b << 32);
    let l = (a >> 32) ^ (b & 0xffff_ffff_0000_0000);
    l ^ (h << 1) ^ (h << 2) ^ (h << 4)
}

// The lower lane of each pair, which has the higher powers, folded at x^16 onto the upper one. It is folded at x^8 first, so that it stays
// in its lane. The remainder of x^16 is x^4 + x^2 + 1.
#[tactic(auto, unfolding(crate::specs::Lanes::fold_quarters))]
fn fold_quarters(p: u64, q: u64) -> u64
    ensures { result ≡ fold_quarters p q }
{
    let h = fold_lanes((p & 0x0000_ffff_0000_ffff) ^ ((q & 0x0000_ffff_0000_ffff) << 16));
    let l = ((p >> 16) & 0x0000_ffff_0000_ffff) ^ (q & 0xffff_0000_ffff_0000);
    l ^ h ^ (h << 2) ^ (h << 4)
}

// Each lane times x^8, whose remainder is x^2 + x + 1.
#[tactic(auto, unfolding(crate::specs::Lanes::times_byte))]
fn times_byte(v: u64) -> u64
    ensures { result ≡ times_byte v }
{
    v ^ (v << 1) ^ (v << 2)
}

// Each lane folded to its remainder, and that times x^8 to its own.
#[tactic(auto, unfolding(crate::specs::Lanes::last_folds))]
fn last_folds(v: u64) -> u64
    ensures { result ≡ last_folds v }
{
    fold_lanes(times_byte(fold_lanes(v)))
}
