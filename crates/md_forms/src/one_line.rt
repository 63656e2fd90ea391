//! How a name is told: on one line, whatever bytes it has.
ghost use Rattle.std.specs.Prelude.{◌≡◌, map};
ghost use Rattle.md_forms.specs.Shown as spec;

use rtx_tree::Name;

/// A byte of a name as it is told: a question mark for a control character of ASCII.
fn shown_byte(byte: u8) -> u8
    ensures { result ≡ spec.shown_byte byte }
{
    if byte < 32 || byte == 127 { b'?' } else { byte }
}

fn show_bytes(bytes: &mut [u8])
    ensures { bytes.new ≡ map spec.shown_byte bytes.old }
{
    for byte in bytes.iter_mut() {
        *byte = shown_byte(*byte);
    }
}

/// A name as it is told. It takes no memory.
pub fn shown_name(name: Name) -> Name
    ensures { result ≡ spec.shown_name name }
{
    let mut bytes = name.into_vec();
    show_bytes(&mut bytes);
    Name::from_vec(bytes)
}
