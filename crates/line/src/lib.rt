// A visit to a line in its 81 lent bytes (document 01, "A visit to a line"; step 5 as document 02's Req 02 and Req 04 have it): what its
// own bytes tell, and step 6. Between the two stands the diagnosis of the line's row, in crate `rows`; what a visit does to the record is
// in crate `record`.
#![tactic(auto)]

ghost use Rattle.std.specs.Prelude.{◌≡◌, cond, ◌^◌, ◌<◌, eqb, ltb, get_or};
ghost use Rattle.std.specs.Int.Count.{ones};
ghost use Rattle.cells.specs.Chips.{joined, in_mask, AtPlaces};
ghost use Rattle.cells.specs.Cells.{chips, chip_at, codeword};
ghost use Rattle.passes.specs.Passes.{is_flagged};
ghost use Rattle.line.specs.Visit.{finding_of, own_word, if_answered, examined_of, refusal_of};
ghost use Rattle.line.specs.Found.{ChecksAt, ChecksIfAnswered, ChecksUnlessRefused};
ghost use Rattle.line.specs.FirstTwo.{first_two_of};
ghost use Rattle.line.specs.declared.Finding.TheVariants.{Decided};
ghost use Rattle.line.specs.declared.Outcome.TheVariants.{Answered};

use cells::places::Places;
use cells::{CHIPS, LINE_BYTES, masks};
use passes::syndromes::Syndromes;
use passes::third::PassThree;
use passes::{first, second, syndromes, third};

// The mask of all nine chips, among which step 2 asks for collisions.
const ALL_CHIPS: u32 = 0x1ff;

// How a visit ends. Answered: with the line. Unlocated, refusal 20 of document 01: none flagged, and the words don't xor to zero.
// Uncorrectable, refusal 21: two or more flagged, and two or more of them are beyond mending, or none is, the mended words don't xor to
// zero and no chip is blamed. No `Result`: `refusal_of`, `if_answered` and the theorems over them speak of these three cases.
#[derive(Clone, Copy, PartialEq, Eq)]
pub enum Outcome {
    Answered,
    Unlocated,
    Uncorrectable,
}

// What a line's own bytes tell. Decided: how the visit ends. Undecided: two or more flagged, none of them beyond mending, and the mended
// words don't xor to zero, but to the number held; the other lines of the row decide. No `Result`: `outcome_by` and theorems, as
// `two_beyond_lem`, speak of these two cases.
#[derive(Clone, Copy)]
pub enum Finding {
    Decided(Outcome),
    Undecided(u64),
}

// What steps 1 to 5 give by the line's own bytes: also the passes made, and the flagged and collision masks, bit K for chip K. It is not
// one generic struct with `Report` and `visits::Visited`: its first field's name says which it is, and `examined_of`, `report_of` and
// theorems read the fields by name.
#[derive(Clone, Copy)]
pub struct Examined {
    pub finding: Finding,
    pub passes: u32,
    pub flagged: u32,
    pub collisions: u32,
}

// What a visit reports: its outcome, the passes made, and the two masks.
#[derive(Clone, Copy)]
pub struct Report {
    pub outcome: Outcome,
    pub passes: u32,
    pub flagged: u32,
    pub collisions: u32,
}

// What passes one and two give to the steps after them: the syndromes, what the nine words sent in pass one xor to, and the flagged mask.
#[derive(Clone, Copy)]
struct FirstTwo {
    syndromes: Syndromes,
    parity: u64,
    flagged: u32,
}

// Steps 1 to 5 by the line's own bytes. The chips' registers equal the catch-words. The words of the flagged chips are put at their places,
// and so are their check bytes unless the line is refused; what stands at the others' is not looked at. Line and catch-words stay two
// parameters: each definition of a visit takes the two, and the calls lend them apart.
pub fn examine(line: &[u8; LINE_BYTES], catch_words: &[u64; CHIPS], places: &mut Places) -> Examined
    ensures examined { result ≡ examined_of line.now catch_words.now }
    ensures words { AtPlaces (is_flagged line.now catch_words.now) (own_word line.now catch_words.now) places.new.words chips }
    ensures checks { ChecksUnlessRefused result.finding (is_flagged line.now catch_words.now) places.new.words places.new.checks }
{
    // The syndromes are made once, for all passes.
    let syndromes = syndromes::of_line(line);
    let unsound = syndromes::unsound_chips(syndromes);
    // Step 1.
    let pass_one = first::pass(line, catch_words, unsound);
    let candidates = pass_one.candidates;
    // Step 2. Without candidates none is flagged.
    let flagged = second::pass(line, catch_words, unsound, candidates);
    let collisions = candidates & (flagged ^ ALL_CHIPS);
    // Steps 3 to 5.
    let passes = passes_made(candidates, flagged);
    let first_two = FirstTwo {
        syndromes,
        parity: pass_one.parity,
        flagged,
    };
    // No contract needs these zeros. By them the compiler drops those of the caller, which steps 1 and 2 would wait for.
    *places = Places::empty();
    let finding = resolve(line, catch_words, first_two, places);
    Examined {
        finding,
        passes,
        flagged,
        collisions,
    }
}

// The number of a refusal in document 01, 0 for an answer, as `refusal_of` gives it.
#[tactic(auto, unfolding(crate::specs::Visit::refusal_of))]
pub fn refusal(outcome: Outcome) -> u32
    ensures { result ≡ refusal_of outcome }
{
    match outcome {
        Outcome::Answered => 0,
        Outcome::Unlocated => 20,
        Outcome::Uncorrectable => 21,
    }
}

// Steps 3 to 5, by how many chips are flagged.
fn resolve(
    line: &[u8; LINE_BYTES],
    catch_words: &[u64; CHIPS],
    first_two: FirstTwo,
    places: &mut Places,
) -> Finding
    requires { first_two ≡ first_two_of line.now catch_words.now }
    ensures finding { result ≡ finding_of line.now catch_words.now }
    ensures words { AtPlaces (is_flagged line.now catch_words.now) (own_word line.now catch_words.now) places.new.words chips }
    ensures checks { ChecksUnlessRefused result (is_flagged line.now catch_words.now) places.new.words places.new.checks }
{
    let FirstTwo {
        parity,
        flagged,
        ..
    } = first_two;
    // No `match` on the count, here and below: the compiler then counts the bits, and a visit that mends takes 7 % longer.
    let flags = flagged.count_ones();
    if flags == 0 {
        must_cancel(parity, Finding::Decided(Outcome::Unlocated))
    } else if flags == 1 {
        // The one flagged chip sent its catch-word, which is taken off the xor of all nine.
        let k = masks::lowest(flagged);
        places.put(k, parity ^ catch_words[k]);
        Finding::Decided(Outcome::Answered)
    } else {
        mend_flagged(line, catch_words, first_two, places)
    }
}

// Step 5, by how many of the flagged chips are beyond mending (document 02, Req 02 and Req 04).
fn mend_flagged(
    line: &[u8; LINE_BYTES],
    catch_words: &[u64; CHIPS],
    first_two: FirstTwo,
    places: &mut Places,
) -> Finding
    requires first_two { first_two ≡ first_two_of line.now catch_words.now }
    requires several { 1 < ones first_two.flagged }
    ensures finding { result ≡ finding_of line.now catch_words.now }
    ensures words { AtPlaces (is_flagged line.now catch_words.now) (own_word line.now catch_words.now) places.new.words chips }
    ensures checks { ChecksUnlessRefused result (is_flagged line.now catch_words.now) places.new.words places.new.checks }
{
    let FirstTwo {
        syndromes,
        parity,
        flagged,
    } = first_two;
    let PassThree { parity, beyond } = third::pass(
        line,
        catch_words,
        syndromes,
        parity,
        flagged,
        places,
    );
    let count = beyond.count_ones();
    if count == 0 {
        must_cancel(parity, Finding::Undecided(parity))
    } else if count == 1 {
        // What the one chip beyond mending sent is taken off the xor of all nine.
        let k = masks::lowest(beyond);
        places.put(k, parity ^ places.words[k]);
        Finding::Decided(Outcome::Answered)
    } else {
        Finding::Decided(Outcome::Uncorrectable)
    }
}

// The passes made: pass two if there are candidates, pass three if two or more of them are flagged.
fn passes_made(candidates: u32, flagged: u32) -> u32
    ensures { result ≡ cond (eqb candidates 0) 1 (cond (ltb 1 (ones flagged)) 3 2) }
{
    if candidates == 0 {
        return 1;
    }
    if flagged.count_ones() > 1 { 3 } else { 2 }
}

// Words must xor to zero: then the line is answered, else the given finding stands.
fn must_cancel(parity: u64, otherwise: Finding) -> Finding
    ensures { result ≡ cond (eqb parity 0) (Decided Answered) otherwise }
{
    if parity == 0 {
        Finding::Decided(Outcome::Answered)
    } else {
        otherwise
    }
}

// Step 6: only an answered line is written back.
pub fn write_answered(line: &mut [u8; LINE_BYTES], outcome: Outcome, flagged: u32, places: &Places)
    requires flagged { flagged < 2 ^ chips }
    requires checks { ChecksIfAnswered outcome (in_mask flagged) places.now.words places.now.checks }
    ensures { line.new ≡ if_answered outcome
        (joined (λ k. cond (in_mask flagged k) (codeword (get_or places.now.words k 0)) (chip_at line.old k)) chips)
        line.old }
{
    // The outcome is taken apart and a refused line left at once, a form that document 01 names.
    let Outcome::Answered = outcome else {
        return;
    };
    write_back(line, flagged, places);
}

// Each flagged chip gets its word and check byte.
fn write_back(line: &mut [u8; LINE_BYTES], flagged: u32, places: &Places)
    requires flagged { flagged < 2 ^ chips }
    requires checks { ChecksAt (in_mask flagged) places.now.words places.now.checks }
    ensures { line.new ≡ joined (λ k. cond (in_mask flagged k) (codeword (get_or places.now.words k 0)) (chip_at line.old k)) chips }
{
    for k in masks::chips(flagged) {
        cells::lay_checked(line, k, places.words[k], places.checks[k]);
    }
}
