//! Runs of bytes in front of a text: of names, digits, words and strings, and of blanks and comments.
ghost use Rattle.std.specs.Prelude.{◌≡◌, ◌≤◌, ◌<◌, ◌^◌, ◌↔◌, length, true, IsTrue};
ghost use Rattle.std.specs.List.{list_all, prefix_len};
ghost use Rattle.std.specs.Char.{is_ascii_digit, is_ascii_alphanumeric};
ghost use Rattle.lucid_value.specs.Plain.{is_text_byte};
ghost use Rattle.lucid_value.specs.Names.{is_name_byte};
ghost use Rattle.lucid_value.specs.Reading.{is_blank, number_of};
ghost use Rattle.lucid_scan.specs.Tokens.{gap};

use lucid_value::{is_blank, is_name_byte, is_text_byte};

/// How many bytes of a name the bytes begin with.
pub fn name_len(bytes: &[u8]) -> usize
    ensures { result ≡ prefix_len is_name_byte bytes.now }
{
    bytes.iter().take_while(|byte| is_name_byte(**byte)).count()
}

/// How many digits the bytes begin with.
pub fn digits_len(bytes: &[u8]) -> usize
    ensures { result ≡ prefix_len is_ascii_digit bytes.now }
{
    bytes
        .iter()
        .take_while(|byte| byte.is_ascii_digit())
        .count()
}

/// How many letters and digits the bytes begin with.
pub fn word_len(bytes: &[u8]) -> usize
    ensures { result ≡ prefix_len is_ascii_alphanumeric bytes.now }
{
    bytes
        .iter()
        .take_while(|byte| byte.is_ascii_alphanumeric())
        .count()
}

/// How many bytes of a string the bytes begin with.
pub fn text_len(bytes: &[u8]) -> usize
    ensures { result ≡ prefix_len is_text_byte bytes.now }
{
    bytes.iter().take_while(|byte| is_text_byte(**byte)).count()
}

/// Whether the value of the digits is one that an integer may have.
pub fn fits(digits: &[u8]) -> bool
    requires { list_all is_ascii_digit digits.now ≡ true }
    ensures { IsTrue result ↔ (number_of digits.now < 2 ^ 127) }
{
    let mut value: u128 = 0;
    for digit in digits {
        let more = (*digit - b'0') as u128;
        if value > (i128::MAX as u128 - more) / 10 {
            return false;
        }
        value = 10 * value + more;
    }
    true
}

/// How many bytes of blanks and comments the bytes begin with.
pub fn gap_len(bytes: &[u8]) -> usize
    ensures value { result ≡ gap bytes.now }
    ensures within { result ≤ length bytes.now }
{
    let mut i = 0;
    let mut in_comment = false;
    while i < bytes.len() {
        let byte = bytes[i];
        if in_comment {
            if byte == b'\n' {
                in_comment = false;
            }
        } else if !is_blank(byte) {
            if byte != b'/' || i + 1 >= bytes.len() || bytes[i + 1] != b'/' {
                return i;
            }
            in_comment = true;
        }
        i += 1;
    }
    i
}
