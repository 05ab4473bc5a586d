//! Tests of the trees of written functions, by public calls alone: what each body gives, with its calls replaced.
#![tactic(auto)]

#[cfg(test)]
mod inlined;
