// What is printed for a line, laid in lent bytes, one text behind the other.
#![tactic(auto)]

ghost use Rattle.std.specs.Prelude.{◌≤◌, length};

// The bytes of the longest text.
pub const LONGEST_TEXT: usize = 33;

// Lent bytes for output, of which the first are used.
#[derive(Drop)]
pub struct Output<'a> {
    pub buffer: &'a mut [u8],
    pub used: usize,
    ghost within: { used ≤ length buffer.now },
}

impl<'a> Output<'a> {
    ghost use Rattle.std.specs.Prelude.{◌≡◌, ◌∷◌, ◌+◌, ◌^◌, ◌≤◌, ◌<◌, ◌↔◌, length, take, IsTrue};
    ghost use Rattle.events.specs.Fields.{space};
    ghost use Rattle.texts.specs.Texts.{hex_text, decimal_text, call_text, visit_text, read_text, unknown_text, longest_text};
    ghost use Rattle.texts.specs.Outputs.{HasRoom, Prints};

    // None of the bytes is used.
    pub fn new(buffer: &'a mut [u8]) -> Output<'a>
        ensures used { result.used ≡ 0 }
        ensures bytes { result.buffer.now ≡ buffer.old }
        ensures same_buffer { result.buffer.ghost_name ≡ buffer.entry.ghost_name }
    {
        Output { buffer, used: 0 }
    }

    // The bytes used.
    pub fn written(&self) -> &[u8]
        ensures { result.now ≡ take self.now.used self.now.buffer.now }
    {
        &self.buffer[..self.used]
    }

    // Whether the longest text has room.
    pub fn has_room(&self) -> bool
        ensures { IsTrue result ↔ HasRoom self.now }
    {
        self.buffer.len() - self.used >= LONGEST_TEXT
    }

    // The letter and 0 or the refusal, its number as a call returns it and `call_text` has it.
    pub fn spell_call(&mut self, letter: u8, refusal: u32)
        requires { HasRoom self.old × (refusal < 1000) }
        ensures laid { Prints self.old (call_text letter refusal) self.new }
        ensures most { self.new.used ≤ self.old.used + longest_text }
    {
        self.put(&[letter]);
        self.put_decimal(refusal);
        self.put(b"\n");
    }

    // An answered read: its first word, passes and masks too, as numbers: this crate stands on none of the device.
    pub fn spell_read(&mut self, word: u64, passes: u32, flagged: u32, collisions: u32)
        requires room { HasRoom self.old }
        requires small { (passes < 1000) × (flagged < 4096) × (collisions < 4096) }
        ensures laid { Prints self.old (read_text word passes flagged collisions) self.new }
        ensures most { self.new.used ≤ self.old.used + longest_text }
    {
        self.put(b"r 0");
        self.put_hex(word, 16);
        self.put_visit(passes, flagged, collisions);
        self.put(b"\n");
    }

    // A line that is no event.
    #[tactic(auto, unfolding(crate::specs::Texts::unknown_text))]
    pub fn spell_unknown(&mut self)
        requires { HasRoom self.old }
        ensures laid { Prints self.old unknown_text self.new }
        ensures most { self.new.used ≤ self.old.used + longest_text }
    {
        self.put(b"?\n");
    }

    // Passes and masks.
    fn put_visit(&mut self, passes: u32, flagged: u32, collisions: u32)
        requires room { self.old.used + 12 ≤ length self.old.buffer.now }
        requires small { (passes < 1000) × (flagged < 4096) × (collisions < 4096) }
        ensures laid { Prints self.old (visit_text passes flagged collisions) self.new }
        ensures most { self.new.used ≤ self.old.used + 12 }
    {
        self.put_decimal(passes);
        self.put_hex(flagged as u64, 3);
        self.put_hex(collisions as u64, 3);
    }

    // A space and a number below 1,000 in decimal. The digits are the kit's `io::decimal`, and below `io::hex`: a `write!` could fail. The
    // two differ in that function, its buffer and what must be small; what they share is `put_field`.
    fn put_decimal(&mut self, n: u32)
        requires { (self.old.used + 4 ≤ length self.old.buffer.now) × (n < 1000) }
        ensures laid { Prints self.old (space ∷ decimal_text n) self.new }
        ensures most { self.new.used ≤ self.old.used + 4 }
    {
        let mut digits = [0u8; 20];
        let count = io::decimal(n as u64, &mut digits);
        self.put_field(&digits[..count]);
    }

    // A space and a number in hexadecimal, with as many digits as it is told.
    fn put_hex(&mut self, value: u64, width: usize)
        requires room { self.old.used + 1 + width ≤ length self.old.buffer.now }
        requires small { (0 < width) × (width ≤ 16) × (value < 16 ^ width) }
        ensures laid { Prints self.old (space ∷ hex_text width value) self.new }
        ensures most { self.new.used ≤ self.old.used + 1 + width }
    {
        let mut digits = [0u8; 16];
        let count = io::hex(value, width, &mut digits);
        self.put_field(&digits[..count]);
    }

    // A space and a text.
    fn put_field(&mut self, text: &[u8])
        requires { self.old.used + 1 + length text.now ≤ length self.old.buffer.now }
        ensures { Prints self.old (space ∷ text.now) self.new }
    {
        self.put(b" ");
        self.put(text);
    }

    // A text.
    pub fn put(&mut self, text: &[u8])
        requires { self.old.used + length text.now ≤ length self.old.buffer.now }
        ensures { Prints self.old text.now self.new }
    {
        let (from, end) = (self.used, self.used + text.len());
        let buffer = &mut *self.buffer;
        buffer[from..end].copy_from_slice(text);
        self.used = end;
    }
}
