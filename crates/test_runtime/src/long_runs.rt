//! Tests of boards that take over from others, through their public items: three worked boards, and a hundred wild
//! boards one after another.

#[cfg(test)]
mod boards;
#[cfg(test)]
mod lanes;
#[cfg(test)]
mod wild;
#[cfg(test)]
mod worked;
