//! The words of lines.
use case_text::Told;
use plain_data::{Items, Memory};
use rtx_tree::Name;
use rv_image::{CodeUnit, Image, assemble};
use rv_text::{CodeItem, parse_line};
use std::alloc::Global;
use std::{slice, str};

/// The label that a text writes, as `.L1_7:`.
fn label_in(text: &str) -> Option<CodeItem> {
    let Some(inner) = text.strip_prefix(".L") else {
        return None;
    };
    let Some(numbers) = inner.strip_suffix(":") else {
        return None;
    };
    let Some((function, uid)) = numbers.split_once('_') else {
        return None;
    };
    match (function.parse::<u32>(), uid.parse::<u32>()) {
        (Ok(function), Ok(uid)) => Some(CodeItem::Label { function, uid }),
        _ => None,
    }
}

/// The label or the line that a text writes.
fn item_in(alloc: Global, text: &str) -> Result<Option<CodeItem>, Memory> {
    if let Some(label) = label_in(text) {
        return Ok(Some(label));
    }
    match parse_line(alloc, text.as_bytes())? {
        Some(line) => Ok(Some(CodeItem::Code { line })),
        None => Ok(None),
    }
}

/// The lines and labels of a text, which stand between semicolons; or none where one is no line.
fn items_in(alloc: Global, text: &str) -> Result<Option<Items<CodeItem>>, Memory> {
    let mut items = Items::new(alloc);
    for part in text.split(" ; ") {
        match item_in(alloc, part)? {
            Some(item) => items.push(item)?,
            None => return Ok(None),
        }
    }
    Ok(Some(items))
}

/// The function `f` with the lines and labels of a text.
fn unit_in(alloc: Global, text: &str) -> Result<Option<CodeUnit>, Memory> {
    let Some(items) = items_in(alloc, text)? else {
        return Ok(None);
    };
    let name = Name::of(alloc, b"f")?;
    Ok(Some(CodeUnit { name, items }))
}

/// The image of a function with the lines and labels of a text.
fn image_in(alloc: Global, input: &[u8]) -> Option<Image> {
    let Ok(text) = str::from_utf8(input) else {
        return None;
    };
    match unit_in(alloc, text) {
        Ok(Some(unit)) => assemble(alloc, slice::from_ref(&unit)).ok(),
        _ => None,
    }
}

/// The hexadecimal digit of a number below 16.
fn digit(number: u32) -> u8 {
    *b"0123456789abcdef".get(number as usize).unwrap_or(&b'?')
}

/// Appends the eight hexadecimal digits of a word.
fn show_word(word: u32, told: &mut Told) {
    let mut rest = word;
    let mut digits = [0; 8];
    for place in 0..8 {
        digits[7 - place] = digit(rest % 16);
        rest /= 16;
    }
    told.gap();
    told.push(&digits);
}

/// Appends the words of a function with the lines and labels of a text.
pub fn tell_words(alloc: Global, input: &[u8], told: &mut Told) {
    let Some(image) = image_in(alloc, input) else {
        return told.fail();
    };
    for word in image.words.as_slice() {
        show_word(*word, told);
    }
}
