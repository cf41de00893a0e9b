// What is known of a page, a word for each thing: read and written in any memory.
ghost use Rattle.layout.specs.Layout.{field_at};
ghost use Rattle.std.specs.Prelude.{◌≡◌, slice_index, slice_set};

use crate::layout::page_at;
use grounds::page::Page;
use words::{put, word};

// Each field is the number of its word among those of its page.
#[derive(Clone, Copy, Debug, PartialEq, Eq)]
pub enum Field {
    // how much the pieces that touch the page take
    Kind = 0,
    // the page on which they begin
    Head = 1,
    // how many they are
    Used = 2,
    // the number of the class that they are of
    Class = 3,
}

// What is known of each unit of a page, a bit for each: where the words of these bits begin among those of the page.
#[derive(Clone, Copy, Debug, PartialEq, Eq)]
pub enum UnitField {
    // whether a piece begins there
    Taken = 4,
    // whether a piece begins there that is spoilt
    Spoilt = 8,
}

// Where the word of a field lies.
fn field_at(page: Page, field: Field) -> usize
    ensures { result ≡ field_at page field }
{
    page_at(page.number()) + field as usize
}

pub fn read(memory: &[u64], page: Page, field: Field) -> u64
    ensures { result ≡ slice_index memory.now (field_at page field) }
{
    word(memory, field_at(page, field))
}

pub fn write(memory: &mut [u64], page: Page, field: Field, value: u64)
    ensures { memory.new ≡ slice_set memory.old (field_at page field) value }
{
    put(memory, field_at(page, field), value);
}
