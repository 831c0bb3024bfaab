// Examples of scripts at their bounds, each run as a test.
#![tactic(auto)]

#[cfg(test)]
mod words;
