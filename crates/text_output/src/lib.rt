// Not for outsiders. Bytes put into a lent slice, one run behind the other.
#![tactic(auto)]

ghost use Rattle.std.specs.Prelude.{◌≡◌, [], ◌∷◌, ◌+◌, ◌≤◌, length};
ghost use Rattle.std.proofs.lemmas.List.Edits.{sets};
ghost use Rattle.task_format.specs.Render.{digits_of};
ghost use Rattle.text_output.specs.Puts.{number_digits, HasRoom, Begun, Puts};
ghost use Rattle.text_output.specs.Filling.{MayPut, HasPut};

// A lent slice, and the place behind the bytes that were put there.
#[derive(Drop)]
pub struct Output<'a> {
    pub bytes: &'a mut [u8],
    pub end: usize,
}

impl<'a> Output<'a> {
    // The slice from its first place on.
    pub fn new(bytes: &'a mut [u8]) -> Output<'a>
        ensures { Begun bytes.entry result }
    {
        Output { bytes, end: 0 }
    }

    pub fn put_byte(&mut self, byte: u8)
        requires { HasRoom (byte ∷ []) self.old }
        ensures { Puts (byte ∷ []) self.old self.new }
    {
        self.bytes[self.end] = byte;
        self.end += 1;
    }

    pub fn put_bytes(&mut self, bytes: &[u8])
        requires { HasRoom bytes.now self.old }
        ensures { Puts bytes.now self.old self.new }
    {
        let end = self.end + bytes.len();
        // No `copy_from_slice`: the archive for C would then need `memmove` from outside.
        for i in 0..bytes.len() {
            self.bytes[self.end + i] = bytes[i];
        }
        self.end = end;
    }

    // The digits of n, which are those of any count that n does not exceed.
    pub fn put_digits(&mut self, n: u32)
        requires { HasRoom (digits_of number_digits n) self.old }
        ensures { Puts (digits_of number_digits n) self.old self.new }
    {
        self.end = put_number(self.bytes, self.end, n);
    }
}

// The digits of n at a place of a slice, and the place behind them. It goes through the digits with that place in hand: kept in the output, each byte would
// wait for the one before.
fn put_number(bytes: &mut [u8], at: usize, n: u32) -> usize
    requires { at + length (digits_of number_digits n) ≤ length bytes.old }
    ensures text { bytes.new ≡ sets bytes.old at (digits_of number_digits n) }
    ensures end { result ≡ at + length (digits_of number_digits n) }
{
    if n < 10 {
        bytes[at] = b'0' + n as u8;
        return at + 1;
    }
    let end = put_number(bytes, at, n / 10);
    bytes[end] = b'0' + (n % 10) as u8;
    end + 1
}

// What `put` puts at the front of a slice, and how many bytes it is.
pub fn put_in<F: FnOnce(&mut Output<'_>)>(bytes: &mut [u8], put: F) -> usize
    requires may { MayPut F.FnOnce put bytes.old }
    ensures { HasPut F.FnOnce put bytes.old bytes.new result }
{
    let mut out = Output::new(bytes);
    put(&mut out);
    out.end
}
