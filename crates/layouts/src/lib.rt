// Words and bytes with known answers: stores, images and scripts held to their layouts by tests alone.
#![tactic(auto)]

#[cfg(test)]
mod tests;
