// Worked examples, as tests.
#![tactic(auto)]

#[cfg(test)]
mod books;
#[cfg(test)]
mod policies;
#[cfg(test)]
mod sheets;
