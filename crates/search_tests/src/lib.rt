//! Tests of the search's layers, in a crate of their own so that each layer is proved once: the
//! trail, propagation against plain scans, learning until level 0 is refuted, and the exchange in
//! one thread and in two.
#![tactic(auto)]

#[cfg(test)]
mod exchange;
#[cfg(test)]
mod learning;
#[cfg(test)]
mod propagation;
#[cfg(test)]
mod trail;
