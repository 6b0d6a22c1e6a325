//! Tests of `sg_gen`, over public calls alone: texts of shapes, whole games, and the games at the ends of the ranges.
#![tactic(auto)]

#[cfg(test)]
mod ends;
#[cfg(test)]
mod making;
#[cfg(test)]
mod shapes;
#[cfg(test)]
mod texts;
