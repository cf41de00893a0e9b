// Where the parts of the header begin.

// How many pages there are, and how many pieces may rest.
pub const PAGES_AT: usize = 0;

pub const RESTS_AT: usize = 1;
// How many classes there are.
pub const COUNT_AT: usize = 2;
// The two words of the queue.
pub const QUEUE_AT: usize = 3;

pub const MARKS_AT: usize = 5;

pub const CLASSES_AT: usize = 13;
// Of each class the bits of the units where no piece of it may begin.
pub const TEMPLATES_AT: usize = 45;
// The least class that has so many grains.
pub const LOOKUP_AT: usize = 173;
// The high level of the index.
pub const HIGH_AT: usize = 430;
// How many words the header has.
pub const HEADER: usize = 991;
