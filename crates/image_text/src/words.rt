//! Words with their addresses.
ghost use Rattle.std.specs.Prelude.{◌≡◌, ◌++◌, ◌<◌, OnOk, false};
ghost use Rattle.std.specs.Fmt.{digit_glyph};
ghost use Rattle.image_text.specs.Text as spec;

use plain_data::Memory;

/// The hexadecimal digit of a number.
fn digit(number: u8) -> u8
    requires { number < 16 }
    ensures { result ≡ digit_glyph false number }
{
    if number < 10 {
        b'0' + number
    } else {
        87 + number
    }
}

/// Prints the last so many hexadecimal digits of a number.
fn print_digits(count: u32, number: u64, out: &mut Vec<u8>) -> Result<(), Memory>
    ensures { OnOk result (out.new.items ≡ out.old.items ++ spec.hex_digits count number) }
{
    if count == 0 {
        return Ok(());
    }
    print_digits(count - 1, number / 16, out)?;
    out.push(digit((number % 16) as u8))?;
    Ok(())
}

/// Prints the eight hexadecimal digits of 32 bits.
#[tactic(auto, unfolding(crate::specs::Text::hex))]
pub(crate) fn print_hex(number: u64, out: &mut Vec<u8>) -> Result<(), Memory>
    ensures { OnOk result (out.new.items ≡ out.old.items ++ spec.hex number) }
{
    print_digits(8, number, out)
}

/// Prints a word behind its address.
fn print_word(address: u64, word: u32, out: &mut Vec<u8>) -> Result<(), Memory>
    ensures { OnOk result (out.new.items ≡ out.old.items ++ spec.word_line address word) }
{
    print_hex(address, out)?;
    out.push(b' ')?;
    print_hex(u64::from(word), out)?;
    out.push(b'\n')?;
    Ok(())
}

/// Prints words from an address on.
pub(crate) fn print_words(address: u64, words: &[u32], out: &mut Vec<u8>) -> Result<(), Memory>
    ensures { OnOk result (out.new.items ≡ out.old.items ++ spec.word_lines address words.now) }
{
    let mut next = address;
    for word in words {
        print_word(next, *word, out)?;
        next = next.checked_add(4).ok_or(Memory)?;
    }
    Ok(())
}
