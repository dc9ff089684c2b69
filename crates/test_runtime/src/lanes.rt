//! Tests of a lane's two ends, through their public items.

#[cfg(test)]
mod ends;
