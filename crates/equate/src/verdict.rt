//! What is compared with instructions, and what a comparison comes to.
use plain_data::Items;
use rtx_tree::Insns;
use rv_text::Line;
use term_text::Item;
use term_tree::Term;

/// What stands in the place of instructions.
#[derive(Drop)]
pub enum Side {
    /// Instructions.
    Insns {
        /// The instructions, in order.
        insns: Insns,
    },
    /// Lines.
    Lines {
        /// The number of the function that the lines' labels name.
        function: u32,
        /// The lines, in order.
        lines: Items<Line>,
    },
}

/// What a comparison comes to.
#[derive(Drop)]
pub enum Verdict {
    /// The sides are equated.
    Same,
    /// An item of which the sides have different terms.
    Differ {
        /// The item.
        item: Item,
        /// The term of the instructions.
        left: Term,
        /// The term of what stands in their place.
        right: Term,
    },
    /// A need that the instructions have not.
    Needs {
        /// The need, as an item.
        item: Item,
        /// The need's register, address, divisor or symbol.
        term: Term,
    },
    /// A part that can't be compared.
    Shape {
        /// The part's place, counted from 0.
        index: u32,
    },
}
