// A number that nothing goes by.
#[derive(Clone, Copy, Debug, PartialEq, Eq)]
pub struct UnknownNumber;
