//! Tests of `sg_selection`, over public calls alone: which events are named over lists of what the lanes are told. Events
//! of lanes in turn and of greatest ranks were worked out by hand, those of a seed from words of the published cipher
//! (`tools/roster_order.py`).
#![tactic(auto)]

#[cfg(test)]
mod best;
#[cfg(test)]
mod seeded;
#[cfg(test)]
mod steps;
#[cfg(test)]
mod turns;
