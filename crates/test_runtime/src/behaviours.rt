//! Tests of behaviours that drive instances, through their public items.

#[cfg(test)]
mod before_acts;
#[cfg(test)]
mod calls;
#[cfg(test)]
mod ends;
#[cfg(test)]
mod gates;
#[cfg(test)]
mod growths;
#[cfg(test)]
mod reader;
#[cfg(test)]
mod threads;
