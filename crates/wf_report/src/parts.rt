//! Appends hexadecimal digits to a line, and gives the word for a bit.

ghost use Rattle.std.specs.Prelude.{◌≡◌, ◌+◌, ◌<◌, ◌≤◌, ◌++◌, length};
ghost use Rattle.wf_def_world.specs.Text.{bit_word, hex, hex_digit as digit_of};

use wf_io::Line;

/// Returns the word for a bit.
pub fn bit_word(bit: bool) -> &'static [u8]
    ensures word { result.now ≡ bit_word bit }
    ensures short { length result.now ≤ 1 }
{
    if bit { b"1" } else { b"0" }
}

fn hex_digit(value: u8) -> u8
    requires { value < 16 }
    ensures { result ≡ digit_of value }
{
    if value < 10 {
        b'0' + value
    } else {
        b'a' + (value - 10)
    }
}

/// Appends the last `digits` hexadecimal digits of a number.
pub fn push_hex(out: &mut Line, digits: u32, value: u64)
    requires { length out.old + digits ≤ 8192 }
    ensures digits { out.new ≡ out.old ++ hex digits value }
    ensures len { length out.new ≡ length out.old + digits }
{
    if digits > 0 {
        push_hex(out, digits - 1, value / 16);
        out.push(hex_digit((value % 16) as u8));
    }
}
