//! Tables of cases of the lowest calls: numbers of 8 to 64 bits, words, names, commands, and what
//! is told of a function and some lines. A testing tool, of which nothing is promised but that it
//! is safe.
//!
//! | Table | Input | Answer |
//! |---|---|---|
//! | `bits` | an operation, a width, and two numbers in hexadecimal digits | the number that comes, so written; of a comparison `yes` or `no` |
//! | `width` | a width | its bits and its bytes |
//! | `number` | a text | the number of 64 signed bits that it writes, or `none` |
//! | `symbol`, `symbol_byte` | a text; a byte, as a number | `yes` or `no` |
//! | `code`, `mode`, `register` | a text | the code, mode or number of a register of that name and its name, or `none` |
//! | `call_used` | a number | whether a call may change the register of that number |
//! | `command` | words, with a blank between two, `""` for the empty one | the command with all its parts, or `no command` |
//! | `outcomes` | steps and arguments, ` | `, the parts of a function behind its name, ` | `, lines with ` ; ` between two | what is told |
#![tactic(auto)]

mod bits;
mod command;
mod names;
mod outcomes;

use case_text::Told;
use std::alloc::Global;

/// Tells what comes of an input. Whether there is such a table.
pub fn answer(alloc: Global, table: &str, input: &[u8], told: &mut Told) -> bool {
    match table {
        "bits" => bits::tell(input, told),
        "width" => bits::tell_width(input, told),
        "command" => command::tell(alloc, input, told),
        "outcomes" => outcomes::tell(alloc, input, told),
        "number" => names::tell_number(input, told),
        "symbol" => names::tell_symbol(input, told),
        "symbol_byte" => names::tell_symbol_byte(input, told),
        "code" => names::tell_code(input, told),
        "mode" => names::tell_mode(input, told),
        "register" => names::tell_register(input, told),
        "call_used" => names::tell_call_used(input, told),
        _ => return false,
    }
    true
}
