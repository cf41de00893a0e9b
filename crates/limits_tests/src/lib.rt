// Limits that are taken and limits that are refused, by themselves and as bytes, and the least class of a size, on examples.
#![tactic(auto)]

#[cfg(test)]
mod tests;
