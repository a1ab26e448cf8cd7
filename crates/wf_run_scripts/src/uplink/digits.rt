//! Appends the bits of a BlockAck to a line.

ghost use Rattle.std.specs.Prelude.{◌≡◌, ◌+◌, ◌<◌, ◌≤◌, ◌++◌, length, true};
ghost use Rattle.wf_def_lists.specs.Table.{bits_word};
ghost use Rattle.wf_def_world.specs.Text.{hex, hex_digit, score_digits};

use wf_io::Line;
use wf_octets::bits::Bits256;

// Returns the hexadecimal digit of a value.
fn digit_of(value: u8) -> u8
    requires { value < 16 }
    ensures { result ≡ hex_digit value }
{
    if value < 10 {
        b'0' + value
    } else {
        b'a' + (value - 10)
    }
}

// Appends the last `digits` hexadecimal digits of a number.
fn push_digits(out: &mut Line, digits: u32, value: u64)
    requires { length out.old + digits ≤ 8192 }
    ensures digits { out.new ≡ out.old ++ hex digits value }
    ensures len { length out.new ≡ length out.old + digits }
{
    if digits > 0 {
        push_digits(out, digits - 1, value / 16);
        out.push(digit_of((value % 16) as u8));
    }
}

// Appends the bits of a wide BlockAck.
fn push_wide(bits: Bits256, out: &mut Line)
    requires { length out.old ≤ 8100 }
    ensures text { out.new ≡ out.old ++ score_digits (bits_word 0 bits) (bits_word 1 bits) (bits_word 2 bits)
        (bits_word 3 bits) true }
    ensures len { length out.new ≤ length out.old + 64 }
{
    push_digits(out, 16, bits.word(3));
    push_digits(out, 16, bits.word(2));
    push_digits(out, 16, bits.word(1));
    push_digits(out, 16, bits.word(0));
}

/// Appends the bits of a BlockAck in hexadecimal, the greatest offset first: 64 digits if it is wide,
/// otherwise 16.
pub fn push_bits(bits: Bits256, wide: bool, out: &mut Line)
    requires { length out.old ≤ 8100 }
    ensures text { out.new ≡ out.old ++ score_digits (bits_word 0 bits) (bits_word 1 bits) (bits_word 2 bits)
        (bits_word 3 bits) wide }
    ensures len { length out.new ≤ length out.old + 64 }
{
    if wide {
        push_wide(bits, out);
    } else {
        push_digits(out, 16, bits.word(0));
    }
}
