// Tests of the crate storage, through its public calls.
#![tactic(auto)]

#[cfg(test)]
mod entries;
#[cfg(test)]
mod files;
#[cfg(test)]
mod quorums;
#[cfg(test)]
mod quotas;
#[cfg(test)]
mod storages;
#[cfg(test)]
mod timestamps;
#[cfg(test)]
mod wide;
