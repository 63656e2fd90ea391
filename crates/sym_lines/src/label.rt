//! The uid for which a symbol stands.
ghost use Rattle.std.specs.Prelude.{ℕ, ◌≡◌, ◌↔◌, ◌++◌, ◌<◌, ◌^◌, Some, codes, option_map};
ghost use Rattle.std.specs.Fmt.{decimal};
ghost use Rattle.rv_text.specs.Body.{label_text};
ghost use Rattle.sym_lines.specs.Run as spec;

use itoa::Buffer;
use text_words::number_in;

/// What stands in a text behind its front, or `None` where it doesn't begin with it.
#[tactic(auto, using(crate::proofs::Labels::behind_means))]
fn behind<'a>(text: &'a [u8], front: &[u8]) -> Option<&'a [u8]>
    ensures { option_map (λ rest. rest.now) result ≡ spec.behind front.now text.entry.now }
{
    if text.len() < front.len() {
        return None;
    }
    let (first, rest) = text.split_at(front.len());
    if front == first { Some(rest) } else { None }
}

fn behind_decimal<'a>(text: &'a [u8], number: u32) -> Option<&'a [u8]>
    ensures { option_map (λ rest. rest.now) result ≡ spec.behind (decimal number) text.entry.now }
{
    behind(text, Buffer::new().format(number).as_bytes())
}

/// What stands in a label's text behind the function's number.
#[tactic(auto, using(crate::proofs::Labels::front_means))]
fn behind_function<'a>(text: &'a [u8], function: u32) -> Option<&'a [u8]>
    ensures { option_map (λ rest. rest.now) result
        ≡ spec.behind (codes ".L" ++ (decimal function ++ codes "_")) text.entry.now }
{
    let rest = behind(text, b".L")?;
    let rest = behind_decimal(rest, function)?;
    behind(rest, b"_")
}

fn uid_of(number: i64) -> Option<u32>
    ensures { result ≡ spec.uid_of number }
{
    u32::try_from(number).ok()
}

fn uid_in(function: u32, symbol: &[u8]) -> Option<u32>
    ensures { result ≡ spec.label_uid function symbol.now }
{
    let rest = behind_function(symbol, function)?;
    let number = number_in(rest)?;
    uid_of(number)
}

/// The uid for which a symbol stands in a function: it is the text of that uid's label.
pub fn label_uid(function: u32, symbol: &[u8]) -> Option<u32>
    ensures uid { result ≡ spec.label_uid function symbol.now }
    ensures label { (uid : ℕ) →
        (result ≡ Some uid) ↔ ((symbol.now ≡ label_text function uid) × (uid < 2 ^ 32)) }
{
    uid_in(function, symbol)
}
