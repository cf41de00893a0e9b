// Openings that are taken and that are refused, on examples.
#![tactic(auto)]

#[cfg(test)]
mod tests;
