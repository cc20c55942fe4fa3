// Tests of the crate replica, through its public calls. What is expected comes from the rules, not from the program.
#![tactic(auto)]

#[cfg(test)]
mod operations;
#[cfg(test)]
mod receipts;
#[cfg(test)]
mod recoveries;
#[cfg(test)]
mod scene;
