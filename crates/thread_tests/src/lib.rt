//! Tests of races, lanes and servers on several threads, of the words by which loops of a server wake each other, and of
//! meshes over sockets of this machine: what one thread and streams in memory can show is a case of `server_golden`. Then the incarnations that a server takes in
//! real folders, and the vectors of HMAC-SHA256. There is nothing here but tests: beside the code, each of them
//! would have that code proved once more.
//!
//! What a test cannot have it ends with, and no value is let go of on the way: a test that gave an error back would
//! be proved to let go of all that it has at each of them.
#![tactic(auto)]

#[cfg(test)]
mod claim_tests;
#[cfg(test)]
mod incarnation_tests;
#[cfg(test)]
mod lane_tests;
#[cfg(test)]
mod loop_tests;
#[cfg(test)]
mod node_tests;
#[cfg(test)]
mod secret_tests;
#[cfg(test)]
mod serve_tests;
#[cfg(test)]
mod word_tests;
