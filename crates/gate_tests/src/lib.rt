//! The tests of the libraries without a database by calls that neither a delivery nor a request to the program makes, and of what it
//! never prints. All else that these crates do is tested by the program.
#![tactic(auto)]

#[cfg(test)]
mod by_commit;
#[cfg(test)]
mod calls;
#[cfg(test)]
mod checks;
#[cfg(test)]
mod equal;
#[cfg(test)]
mod faults;
#[cfg(test)]
mod records;
#[cfg(test)]
mod same;
