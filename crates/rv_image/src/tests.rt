//! Images of small functions, and of one that is as long as may be.
use crate::image::{AssembleRefusal, CodeUnit, Image};
use crate::units::assemble;
use plain_data::{Items, Memory};
use rtx_tree::Name;
use rv_text::{CodeItem, parse_line};
use std::alloc::Global;

/// Puts a line behind others, so many times.
fn push_line(
    alloc: Global,
    text: &str,
    times: usize,
    items: &mut Items<CodeItem>,
) -> Result<(), Memory> {
    for _time in 0..times {
        if let Some(line) = parse_line(alloc, text.as_bytes())? {
            items.push(CodeItem::Code { line })?;
        }
    }
    Ok(())
}

fn unit(alloc: Global, name: &str, items: Items<CodeItem>) -> Result<CodeUnit, Memory> {
    Ok(CodeUnit {
        name: Name::of(alloc, name.as_bytes())?,
        items,
    })
}

/// The image of one function.
fn image_of(alloc: Global, name: &str, items: Items<CodeItem>) -> Result<Image, AssembleRefusal> {
    let units = vec![in alloc; unit(alloc, name, items)?];
    match units {
        Ok(units) => assemble(alloc, &units),
        Err(_) => Err(AssembleRefusal::Memory),
    }
}

fn image(alloc: Global, name: &str, lines: &[&str]) -> Result<Image, AssembleRefusal> {
    let mut items = Items::new(alloc);
    for line in lines {
        push_line(alloc, line, 1, &mut items)?;
    }
    image_of(alloc, name, items)
}

fn has_words(image: &Result<Image, AssembleRefusal>, words: &[u32]) -> bool {
    match image {
        Ok(image) => image.words.as_slice() == words,
        Err(_) => false,
    }
}

#[test]
fn one_word_each(rt: HostRuntime) {
    let image = image(rt.alloc(), "add", &["\tadd\ta0,a0,a1", "\tret"]);
    assert!(rt; has_words(&image, &[0x00b5_0533, 0x0000_8067]));
}

#[test]
fn a_number_of_two_words(rt: HostRuntime) {
    let image = image(
        rt.alloc(),
        "f",
        &["\tli\tt3,2048", "\tadd\ta0,a0,t3", "\tret"],
    );
    assert!(rt;
        has_words(
            &image,
            &[0x0000_1e37, 0x800e_0e1b, 0x01c5_0533, 0x0000_8067]
        )
    );
}

/// The first outside symbol stands at 2,097,152.
#[test]
fn an_outside_symbol(rt: HostRuntime) {
    let image = image(
        rt.alloc(),
        "g",
        &["\tcall\th", "\tla\ta0,h", "\tcall\tk", "\tret"],
    );
    assert!(rt;
        has_words(
            &image,
            &[
                0x0020_00b7,
                0x0000_80e7,
                0x0020_0537,
                0x0005_0513,
                0x0020_10b7,
                0x0000_80e7,
                0x0000_8067
            ]
        )
    );
    assert!(rt;
        match &image {
            Ok(image) => image.outside.len() == 2 && image.entries.len() == 1,
            Err(_) => false,
        }
    );
}

/// A branch over so many lines.
fn over(alloc: Global, lines: usize) -> Result<Image, AssembleRefusal> {
    let mut items = Items::new(alloc);
    push_line(alloc, "\tbeq\ta0,a1,.L1_7", 1, &mut items)?;
    push_line(alloc, "\tadd\ta0,a0,a1", lines, &mut items)?;
    items.push(CodeItem::Label {
        function: 1,
        uid: 7,
    })?;
    push_line(alloc, "\tret", 1, &mut items)?;
    image_of(alloc, "f", items)
}

/// Whether the image has so many words, and begins with one.
fn begins(image: &Result<Image, AssembleRefusal>, words: usize, first: u32) -> bool {
    match image {
        Ok(image) => image.words.len() == words && image.words.as_slice().first() == Some(&first),
        Err(_) => false,
    }
}

#[test]
fn branches_are_long_where_they_have_to_be(rt: HostRuntime) {
    assert!(rt; begins(&over(rt.alloc(), 0), 2, 0x00b5_0263));
    assert!(rt; begins(&over(rt.alloc(), 1022), 1024, 0x7eb5_0ee3));
    assert!(rt; begins(&over(rt.alloc(), 1023), 1026, 0x00b5_1463));
    assert!(rt; begins(&over(rt.alloc(), 1024), 1027, 0x00b5_1463));
}

/// A label that doesn't stand there is the function's entry.
#[test]
fn a_jump_to_itself(rt: HostRuntime) {
    let image = image(rt.alloc(), "spin", &["\tj\t.L1_1"]);
    assert!(rt; has_words(&image, &[0x0000_006f]));
}

/// A function of so many lines of eight words and so many of one.
fn long_one(alloc: Global, eights: usize, ones: usize) -> Result<Image, AssembleRefusal> {
    let mut items = Items::new(alloc);
    push_line(alloc, "\tli\ta0,1311768467463790321", eights, &mut items)?;
    push_line(alloc, "\tnop", ones, &mut items)?;
    image_of(alloc, "f", items)
}

#[test]
fn the_longest_image(rt: HostRuntime) {
    assert!(rt; begins(&long_one(rt.alloc(), 32767, 7), 262_143, 0x0123_4537));
    assert!(rt;
        matches!(
            long_one(rt.alloc(), 32767, 8),
            Err(AssembleRefusal::Limit { size: 1_048_576 })
        )
    );
}
