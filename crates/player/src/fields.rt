// The fields of a script, read one after the other.
ghost use Rattle.std.specs.Prelude.{◌≡◌, ◌+◌, length, take, drop, IfSome};
ghost use Rattle.std.specs.Iterator.{at_most};
ghost use Rattle.player.specs.Left.{NoLonger, Shorter, Starts, Took, integer_of, switch_byte};

// What is left of a script. Each method takes one field off its front, or gives none where the rest is too short or no such field.
#[derive(Drop)]
pub struct Fields<'a>(pub &'a [u8]);

impl<'a> Fields<'a> {
    // A byte.
    pub fn byte(&mut self) -> Option<u8>
        ensures within { NoLonger self.old self.new }
        ensures taken { IfSome result (λ x. Shorter self.old self.new) }
        ensures first { IfSome result (λ byte. Starts self.old byte) }
        ensures bytes { IfSome result (λ byte. Took 1 self.old self.new) }
    {
        let (first, rest) = self.0.split_first()?;
        self.0 = rest;
        Some(*first)
    }

    // An integer, the most significant byte first.
    pub fn u32(&mut self) -> Option<u32>
        ensures within { NoLonger self.old self.new }
        ensures taken { IfSome result (λ x. Shorter self.old self.new) }
        ensures value { IfSome result (λ x. x ≡ integer_of self.old) }
        ensures bytes { IfSome result (λ x. Took 4 self.old self.new) }
    {
        let (bytes, rest) = self.0.split_first_chunk::<4>()?;
        self.0 = rest;
        Some(u32::from_be_bytes(*bytes))
    }

    // A switch: 0 is off, 1 is on.
    pub fn switch(&mut self) -> Option<bool>
        ensures within { NoLonger self.old self.new }
        ensures first { IfSome result (λ on. Starts self.old (switch_byte on)) }
        ensures bytes { IfSome result (λ on. Took 1 self.old self.new) }
    {
        match self.byte()? {
            0 => Some(false),
            1 => Some(true),
            _ => None,
        }
    }

    // A string: its length and its bytes.
    pub fn string(&mut self) -> Option<&'a [u8]>
        ensures within { NoLonger self.old self.new }
        ensures taken { IfSome result (λ x. Shorter self.old self.new) }
        ensures value { IfSome result (λ x. x.now ≡ take (integer_of self.old) (drop 4 self.old.0.now)) }
        ensures bytes { IfSome result (λ x. Took (4 + integer_of self.old) self.old self.new) }
    {
        let n = self.u32()? as usize;
        let (bytes, rest) = self.0.split_at_checked(n)?;
        self.0 = rest;
        Some(bytes)
    }
}

// The number of the four bytes at a place, the most significant first; 0 where they are not all there.
pub fn u32_at(bytes: &[u8], at: usize) -> u32 {
    let mut fields = Fields(bytes.get(at..).unwrap_or(&[]));
    fields.u32().unwrap_or(0)
}

// The strings that stand one after the other, up to the first that is cut short.
#[derive(Drop)]
pub struct Strings<'a>(pub &'a [u8]);

impl<'a> Iterator for Strings<'a> {
    type Item = &'a [u8];

    ghost remaining = { λ s. at_most (length s.0.now) };

    fn next(&mut self) -> Option<&'a [u8]> {
        let mut fields = Fields(self.0);
        let bytes = fields.string()?;
        self.0 = fields.0;
        Some(bytes)
    }
}
