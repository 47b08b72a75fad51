// The leaves: a cell's fields in a line's part, and a row by line (document 01, "Lines and cells").
#![tactic(auto)]

mod cell;
mod row;

pub use cell::{
    cell_field, cell_field_or_zero, cell_line, field_in_line, store_field, store_in_line,
};
pub use row::{header_word, header_word_or_zero, store_header_word, store_line, write_back};

// Which of a cell's three words.
#[derive(Clone, Copy)]
pub enum Field {
    Record,
    Backup,
    Mark,
}
