// Which word of lent memory is which: a header, as many words for each page, the queue of those that rest, and the low level of the index of pages.
// Strides are constant, so that where a word lies is told by sums of products with constants.
#![tactic(auto)]

ghost use Rattle.layout.specs.Layout.{AreasInOrder, FieldsInOrder};

pub mod field;
pub mod header;
pub mod layout;
pub mod spot;

// No two parts of memory share a word, and all lie in it.
pub fn areas_in_order()
    ensures { AreasInOrder }
{}

// No two parts of a page's words share one, and all lie in them.
pub fn fields_in_order()
    ensures { FieldsInOrder }
{}
