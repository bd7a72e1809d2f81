//! Tests of single calls on stores, which no worked row reaches. The store of pages over log and pool, and the table of transactions: which calls of a
//! disk are made, in which order, and the numbers of statuses on the disk. The store of sessions: what its steps answer behind a fault of the disk. A run of
//! the serial model, which no program makes. And workers over a Stepper in memory that does what a plan says: each wait of a plan or of a gate is bounded by
//! a number of turns, behind which the test has failed. Nothing stands on it.
#![tactic(auto)]

#[cfg(test)]
mod ended;
#[cfg(test)]
mod ends;
#[cfg(test)]
mod faults;
#[cfg(test)]
mod gates;
#[cfg(test)]
mod jobs;
#[cfg(test)]
mod orders;
#[cfg(test)]
mod planned;
#[cfg(test)]
mod reads;
#[cfg(test)]
mod run;
#[cfg(test)]
mod serial;
#[cfg(test)]
mod signal;
#[cfg(test)]
mod status_pages;
#[cfg(test)]
mod stores;
#[cfg(test)]
mod trial;
#[cfg(test)]
mod watched;
