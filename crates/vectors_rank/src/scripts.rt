// Calls one after another. A read has the line, the task, what is due of it (the byte that the line was filled with, or a refusal) and what
// its visit reports (passes, chips flagged, collisions); a patrol has the first line, the task, the budget and what it reports (lines
// visited, lines refused, words rewritten).
use rank_trials::{Session, Tally};
use trials::Visit;

// Document 01's example of program `bench`.
pub fn bench(s: &mut Session) {
    s.write(0, 0x11);
    s.read(0, 0, Ok(0x11), Visit::new(2, 0x000, 0x0ff));
    catch_word_is(s, 7, 0xaf48_8aca_905b_8d26);
    catch_word_is(s, 8, 0x1111_1111_1111_1111);
    s.read(0, 0, Ok(0x11), Visit::new(1, 0x000, 0x000));
    s.fault(0, 3, [0, 0, 7]);
    s.read(0, 0, Ok(0x11), Visit::new(2, 0x008, 0x000));
    s.fault(0, 3, [0, 0, 7]);
    s.fault(0, 5, [0, 1, 0]);
    s.read(0, 0, Err(21), Visit::new(9, 0x028, 0x000));
}

// Mistakes that document 01 names: a collision is no fault, so that no word counts as repaired; chip 8 is flagged and collides as the
// others do; and one chip that is flagged is rebuilt, where 07h over word 0 would be mended to 1.
pub fn mistakes(s: &mut Session) {
    s.write(0, 0x11);
    s.read(0, 0, Ok(0x11), Visit::new(2, 0x000, 0x0ff));
    totals_are(s, [0, 0, 0, 0, 0, 0, 0, 0]);
    s.fault(0, 8, [0, 1, 0]);
    s.read(0, 0, Ok(0x11), Visit::new(2, 0x100, 0x000));
    s.renew(8, 0, Ok(()));
    s.read(0, 0, Ok(0x11), Visit::new(2, 0x000, 0x100));
    s.fault(1, 3, [0, 0, 7]);
    s.read(1, 0, Ok(0x00), Visit::new(2, 0x008, 0x000));
    collisions_refused(s);
}

// Another: a refusal renews no catch-word, be it 20, 21 for words that don't xor to zero, or 21 for two chips beyond mending.
fn collisions_refused(s: &mut Session) {
    s.renew(2, 0, Ok(()));
    s.fault(1, 0, [0, 1, 7]);
    s.read(1, 0, Err(20), Visit::new(2, 0x000, 0x004));
    s.fault(1, 0, [0, 1, 7]);
    s.fault(1, 3, [0, 0, 7]);
    s.fault(1, 5, [0, 1, 0]);
    s.read(1, 0, Err(21), Visit::new(9, 0x028, 0x004));
    s.fault(1, 3, [0, 0, 4]);
    s.fault(1, 5, [3, 1, 0]);
    s.read(1, 0, Err(21), Visit::new(3, 0x028, 0x004));
    catch_word_is(s, 2, 0);
}

// Two catch-words move, one of them with a carry out.
pub fn moves(s: &mut Session) {
    s.write(3, 0xff);
    s.renew(0, 0xffff_ffff_ffff_ffff, Ok(()));
    s.renew(8, 0, Ok(()));
    s.read(3, 0, Ok(0xff), Visit::new(2, 0x000, 0x101));
    catch_word_is(s, 0, 0x9e37_79b9_7f4a_7c14);
    catch_word_is(s, 8, 0x9e37_79b9_7f4a_7c15);
    s.read(3, 0, Ok(0xff), Visit::new(1, 0x000, 0x000));
}

// Line 0 is to be refused 20, line 1 rebuilt, and line 2 refused 21; line 3 has one chip beyond mending beside one bit.
fn damages(s: &mut Session) {
    s.write(1, 0x21);
    s.write(3, 0x23);
    s.fault(0, 4, [0, 1, 7]);
    s.fault(1, 0, [0, 0, 1]);
    s.fault(2, 3, [0, 0, 7]);
    s.fault(2, 5, [0, 1, 0]);
    s.fault(3, 2, [3, 0, 0]);
    s.fault(3, 8, [1, 0, 0]);
}

// Patrols over these lines: with budget 0, over three lines, and over the rest and more. All is repaired then that can be.
pub fn patrols(s: &mut Session) {
    damages(s);
    s.patrol(0, 1, 0, Ok(Tally::new(0, 0, 0)));
    s.patrol(0, 1, 3, Ok(Tally::new(3, 2, 1)));
    s.patrol(3, 2, 4294967295, Ok(Tally::new(1, 0, 2)));
    s.patrol(0, 3, 4, Ok(Tally::new(4, 2, 0)));
    s.read(0, 0, Err(20), Visit::new(1, 0x000, 0x000));
    s.read(1, 0, Ok(0x21), Visit::new(1, 0x000, 0x000));
    s.read(2, 0, Err(21), Visit::new(9, 0x028, 0x000));
    s.read(3, 0, Ok(0x23), Visit::new(1, 0x000, 0x000));
    totals_are(s, [0, 1, 2, 0, 0, 0, 0, 0]);
}

// Repair totals: task 0 counts one word, task 5 stops at the limit with a word left over and stays there, task 6 just reaches it.
pub fn totals(s: &mut Session) {
    s.rank.repairs = [0, 0, 0, 0, 0, 4294967294, 4294967293, 0];
    s.fault(0, 0, [0, 1, 0]);
    s.read(0, 0, Ok(0x00), Visit::new(2, 0x001, 0x000));
    two_damaged(s);
    s.read(0, 5, Ok(0x00), Visit::new(3, 0x101, 0x000));
    two_damaged(s);
    s.patrol(0, 6, 1, Ok(Tally::new(1, 0, 2)));
    totals_are(s, [1, 0, 0, 0, 0, 4294967295, 4294967295, 0]);
    two_damaged(s);
    s.read(0, 5, Ok(0x00), Visit::new(3, 0x101, 0x000));
    two_damaged(s);
    s.patrol(0, 7, 1, Ok(Tally::new(1, 0, 2)));
    totals_are(s, [1, 0, 0, 0, 0, 4294967295, 4294967295, 2]);
}

fn two_damaged(s: &mut Session) {
    s.fault(0, 0, [0, 0, 1]);
    s.fault(0, 8, [0, 1, 0]);
}

// No call: whether both copies of a chip's catch-word are a word.
fn catch_word_is(s: &mut Session, chip: usize, word: u64) {
    let due = Some(&word);
    let holds = s.rank.catch_words.get(chip) == due && s.rank.registers.get(chip) == due;
    s.count(holds);
}

// No call: whether the repair totals are these.
fn totals_are(s: &mut Session, totals: [u32; 8]) {
    let holds = s.rank.repairs == totals;
    s.count(holds);
}
