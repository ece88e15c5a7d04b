ghost use Rattle.std.specs.Prelude.{◌≡◌, length};
ghost use Rattle.flags.specs.Bits.{bits_below, BitsTellCodes};
ghost use Rattle.flags.specs.Model.{flags_of};

use super::flags::Flags;
use refusal::Refusal;
use theory::{Printable, Theory, print_values};

/// The bits of a code of as many flags as there can be, bit 0 first.
fn bits_of(code: u16) -> [i32; 12]
    ensures { result ≡ bits_below 12 code }
{
    let mut bits = [0; 12];
    for (place, bit) in bits.iter_mut().enumerate() {
        *bit = i32::from((code >> place) % 2);
    }
    bits
}

impl Printable for Flags {
    ghost values = { λ t code. bits_below (length (flags_of t).names) code };

    fn print(&self, code: u16, out: &mut [u8]) -> Result<usize, Refusal> {
        let bits = bits_of(code);
        print_values(
            self.code_count(),
            code,
            &bits[..usize::from(self.flag_count())],
            out,
        )
    }
}

/// States that the bits of a code tell the code.
pub fn bits_tell_codes()
    ensures { BitsTellCodes }
{}
