//! A block, as it is written.
use plain_data::Items;
use rtx_tree::Name;

/// What stands before the operand of a column.
#[derive(Clone, Copy)]
pub enum Mark {
    Nothing,
    /// `=`
    Output,
    /// `+`
    Both,
}

/// A column: the constraint of one operand.
#[derive(Clone, Copy)]
pub struct Column {
    /// The operand's number.
    pub operand: u32,
    pub mark: Mark,
}

/// What stands in the brackets of each row.
#[derive(Drop)]
pub struct Layout {
    /// The columns, in the order of the text.
    pub columns: Items<Column>,
    /// The names of attributes, in the order of the text.
    pub names: Items<Name>,
}

/// A row: one alternative.
#[derive(Drop)]
pub struct Row {
    /// What each column admits.
    pub entries: Items<Name>,
    /// The value of each name.
    pub values: Items<Name>,
    /// The output, without the blanks round it.
    pub output: Name,
}

/// A block.
#[derive(Drop)]
pub struct Block {
    pub layout: Layout,
    /// The rows, of which there is one at least.
    pub rows: Items<Row>,
}
