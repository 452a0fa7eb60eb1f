//! Tests of goals that were rewritten, by public calls: roots whose values are known, and how many
//! copies stand for a product. That a root has the same values as before, and that no product is
//! left, are clauses of `simplify`.
#![tactic(auto)]

#[cfg(test)]
mod goals;
#[cfg(test)]
mod products;
