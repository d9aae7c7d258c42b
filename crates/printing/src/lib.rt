// Texts put on a page one behind another: bytes, names and numbers in decimal. A text that does not fit is not put, and the place where the
// page's text ends is then past the end of its bytes, where nothing fits again: so puts follow each other, and are looked at once at the end.
#![tactic(auto)]

ghost use Rattle.std.specs.Prelude.{◌≡◌, length, take};
ghost use Rattle.printing.specs.Decimal.{decimal};
ghost use Rattle.printing.specs.Name.{unfilled};
ghost use Rattle.printing.specs.Printing.{Prints};

// A text in the making: the bytes that it is put into, and the place where it ends so far.
#[derive(Drop)]
pub struct Page<'a> {
    pub bytes: &'a mut [u8],
    pub at: usize,
}

// How many bytes stand before the first zero.
fn name_length(name: &[u8]) -> usize
    ensures { result ≡ length (unfilled name.now) }
{
    name.iter().position(|b| *b == 0).unwrap_or(name.len())
}

// Copies a text over as many bytes, byte by byte: by `copy_from_slice` the archive for C would want `memmove` from outside.
fn copy(bytes: &mut [u8], text: &[u8])
    requires { length bytes.old ≡ length text.now }
    ensures { bytes.new ≡ text.now }
{
    for i in 0..text.len() {
        bytes[i] = text[i];
    }
}

impl<'a> Page<'a> {
    // A page with nothing on it.
    pub fn new(bytes: &'a mut [u8]) -> Page<'a>
        ensures same_reference { result.bytes.ghost_name ≡ bytes.entry.ghost_name }
        ensures bytes_kept { result.bytes.now ≡ bytes.old }
        ensures nothing_put { result.at ≡ 0 }
    {
        Page { bytes, at: 0 }
    }

    // The text so far, or all the bytes where a text did not fit.
    pub fn text(&self) -> &[u8]
        ensures { result.now ≡ take self.now.at self.now.bytes.now }
    {
        &self.bytes[..self.at.min(self.bytes.len())]
    }

    // Puts a text behind the first `at` bytes.
    pub fn put(&mut self, text: &[u8])
        ensures same_reference { self.new.bytes.ghost_name ≡ self.old.bytes.ghost_name }
        ensures prints { Prints self.old.bytes.now self.new.bytes.now self.old.at self.new.at text.now }
    {
        if self.bytes.len() < self.at || self.bytes.len() - self.at < text.len() {
            self.at = self.bytes.len() + 1;
            return;
        }
        let end = self.at + text.len();
        copy(&mut self.bytes[self.at..end], text);
        self.at = end;
    }

    // Puts a name, which zeros may fill up.
    pub fn put_name(&mut self, name: &[u8])
        ensures same_reference { self.new.bytes.ghost_name ≡ self.old.bytes.ghost_name }
        ensures prints { Prints self.old.bytes.now self.new.bytes.now self.old.at self.new.at (unfilled name.now) }
    {
        let n = name_length(name);
        self.put(&name[..n]);
    }

    // Puts a number in decimal. Its digits, at most twenty, are made from the last to the first.
    pub fn put_decimal(&mut self, number: u64)
        ensures same_reference { self.new.bytes.ghost_name ≡ self.old.bytes.ghost_name }
        ensures prints { Prints self.old.bytes.now self.new.bytes.now self.old.at self.new.at (decimal number) }
    {
        let mut digits = [0u8; 20];
        let mut first = 19;
        let mut left = number;
        // No range is counted here: the number tells when its digits end.
        while 10 <= left {
            digits[first] = b'0' + (left % 10) as u8;
            first -= 1;
            left /= 10;
        }
        digits[first] = b'0' + left as u8;
        self.put(&digits[first..]);
    }
}
