// Lines as they are read and printed, and lines that are refused, on examples.
#![tactic(auto)]

#[cfg(test)]
mod tests;
