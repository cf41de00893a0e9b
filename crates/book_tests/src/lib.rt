// Pieces that are taken, rest and are free again, in the book of a ground of one page.
#![tactic(auto)]

#[cfg(test)]
mod tests;
