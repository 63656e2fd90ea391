//! Words of a command line, and the command that they are.
use case_text::Told;
use pass_name::Road;
use rtlc_words::{Command, Told as Tells, command_of};
use rtx_tree::Name;
use std::alloc::{AllocError, Global};
use std::str;

fn show_described(command: &str, name: &Option<Name>, told: &mut Told) {
    told.text(command);
    if let Some(name) = name {
        told.text(" of ");
        told.push(name.bytes());
    }
}

/// The command that tells the lines of a road.
fn by_road(road: Road) -> &'static str {
    match road {
        Road::Usual => "asm",
        Road::Reusing => "reuse",
        Road::Scheduled => "schedule",
    }
}

/// Appends what is told of functions, by a description.
fn show_over(name: &Option<Name>, what: &Tells, told: &mut Told) {
    match what {
        Tells::Lines { road } => show_described(by_road(*road), name, told),
        Tells::Forms => show_described("recog", name, told),
        Tells::Cycles => show_described("cycles", name, told),
        Tells::Words => show_described("image", name, told),
        Tells::Behind { pass } => {
            show_described("dump", name, told);
            told.text(" behind ");
            told.text(pass.name());
        }
        Tells::Outcomes {
            function,
            steps,
            args,
        } => {
            show_described("eval", name, told);
            told.text(" ");
            told.push(function.bytes());
            told.text(" for ");
            told.show(*steps);
            told.text(" at");
            for arg in args {
                told.text(" ");
                told.show(*arg);
            }
        }
    }
}

/// Appends a command with all its parts, in one line.
fn show(command: &Command, told: &mut Told) {
    match command {
        Command::Over {
            description,
            told: what,
        } => show_over(description, what, told),
        Command::Plain => told.text("plain"),
        Command::Listed { description } => show_described("list", description, told),
        Command::Made {
            description,
            number,
        } => {
            show_described("make", description, told);
            told.text(" ");
            told.show(*number);
        }
    }
}

/// The words of a text with a blank between two, of which `""` is the empty one.
fn words_of<'a>(alloc: Global, text: &'a str) -> Result<Vec<&'a str>, AllocError> {
    let mut words = Vec::new(alloc);
    for word in text.split(' ') {
        words.push(if word == "\"\"" { "" } else { word })?;
    }
    Ok(words)
}

/// Appends what words with a blank between two are, of which `""` is the empty one.
pub fn tell(alloc: Global, input: &[u8], told: &mut Told) {
    if let Ok(text) = str::from_utf8(input)
        && let Ok(words) = words_of(alloc, text)
    {
        match command_of(alloc, &words) {
            Ok(Some(command)) => show(&command, told),
            Ok(None) => told.text("no command"),
            Err(_) => told.fail(),
        }
    } else {
        told.fail();
    }
}
