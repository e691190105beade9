// Each refusal of each call.
use rank_trials::{CATCH_WORD, Session, UNREAD, record_of};
use record::Rank;
use trials::{Visit, outcome};

// A pattern of one bit.
const BIT: [u8; 9] = [0, 0, 0, 0, 0, 0, 0, 0, 1];

// An accepted boot, 11 and 5.
pub fn by_boot(s: &mut Session) {
    boot(s, &mut [UNREAD; 162], &[CATCH_WORD; 9], Ok(()));
    boot(s, &mut [UNREAD; 0], &[CATCH_WORD; 9], Err(11));
    boot(s, &mut [UNREAD; 80], &[CATCH_WORD; 9], Err(11));
    boot(s, &mut [UNREAD; 163], &[CATCH_WORD; 8], Err(11));
    boot(s, &mut [UNREAD; 162], &[CATCH_WORD; 8], Err(5));
    boot(s, &mut [UNREAD; 162], &[CATCH_WORD; 10], Err(5));
}

// A boot of another memory, with some catch-words: it is to give the record of two lines and clear the memory, or, if it is refused, to
// give a record of zeros and leave the memory.
fn boot(s: &mut Session, memory: &mut [u8], catch_words: &[u64], due: Result<(), u32>) {
    let called = rank::rank_boot(memory, catch_words);
    let (record, byte) = match due {
        Ok(()) => (record_of(2, true, CATCH_WORD), 0),
        Err(_) => (record_of(0, false, 0), UNREAD),
    };
    let right = outcome(called.refusal) == due && called.rank == record;
    s.count(right && memory.iter().all(|b| *b == byte));
}

// 12, 13 and 14, by a record of other lines or Enable, and by one in which one chip's register differs from its catch-word. A renew has no
// memory.
pub fn by_state(s: &mut Session) {
    s.rank = record_of(4, false, CATCH_WORD);
    all_refuse(s, 12);
    s.rank = record_of(0, true, CATCH_WORD);
    all_refuse(s, 12);
    s.rank = record_of(65537, true, CATCH_WORD);
    all_refuse(s, 12);
    s.rank = record_of(3, true, CATCH_WORD);
    lines_refused(s, 2, 13);
    s.rank = record_of(5, true, CATCH_WORD);
    lines_refused(s, 3, 13);
    s.rank = record_of(4, true, CATCH_WORD);
    s.rank.registers[0] = 1;
    all_refuse(s, 14);
    s.rank = record_of(4, true, CATCH_WORD);
    s.rank.registers[8] = 1;
    all_refuse(s, 14);
}

// The number is the one that document 01 gives the refusal.
fn all_refuse(s: &mut Session, number: u32) {
    s.renew(8, 5, Err(number));
    lines_refused(s, 3, number);
}

// The four calls that have a line.
fn lines_refused(s: &mut Session, line: u32, number: u32) {
    s.fault_gives(line, 8, &BIT, Err(number));
    s.write_gives(line, &[0xff; 64], Err(number));
    s.read(line, 7, Err(number), Visit::default());
    s.patrol(line, 7, 1, Err(number));
}

// 31, 1, 3, 2 and 4. In 12 bits 4,096 would be line 0, and in 16 bits 65,536.
pub fn by_argument(s: &mut Session) {
    s.read(3, 8, Err(31), Visit::default());
    s.patrol(3, 8, 1, Err(31));
    lines_refused(s, 4, 1);
    lines_refused(s, 4096, 1);
    lines_refused(s, 65536, 1);
    s.renew(9, 5, Err(3));
    s.fault_gives(3, 9, &BIT, Err(3));
    by_length(s);
}

fn by_length(s: &mut Session) {
    s.write_gives(3, &[0xff; 63], Err(2));
    s.write_gives(3, &[0xff; 65], Err(2));
    s.read_gives(&mut [UNREAD; 63], 3, 7, Err(2), Visit::default());
    s.read_gives(&mut [UNREAD; 65], 3, 7, Err(2), Visit::default());
    s.fault_gives(3, 8, &[0, 0, 0, 0, 0, 0, 0, 0], Err(4));
    s.fault_gives(3, 8, &[0, 0, 0, 0, 0, 0, 0, 0, 1, 0], Err(4));
}

// Lines of a rank of 4,097 lines, and beyond: 69,632 is 65,536 + 4,096.
pub fn by_line(s: &mut Session) {
    let mut memory = [UNREAD; 331857];
    let called = rank::rank_boot(&mut memory, &[0x11; 9]);
    s.count(line_gives(called.rank, &mut memory, 4096, Ok(())));
    s.count(line_gives(called.rank, &mut memory, 4097, Err(1)));
    s.count(line_gives(called.rank, &mut memory, 69632, Err(1)));
}

// Whether a write and a read are accepted or refused. What is answered is what was written.
fn line_gives(rank: Rank, memory: &mut [u8], line: u32, due: Result<(), u32>) -> bool {
    let mut buffer = [0; 64];
    let w = rank::rank_write(rank, memory, line, &[0xff; 64]);
    let r = rank::rank_read(rank, memory, 0, line, &mut buffer);
    outcome(w.refusal) == due && outcome(r.refusal) == due && (buffer[63] == 0xff) == due.is_ok()
}
