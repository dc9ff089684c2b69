//! Tests of posts in the memory of another language, through their public items. They pass messages both ways, make
//! calls on handles without a post, and refuse each growth.

#[cfg(test)]
mod calls;
#[cfg(test)]
mod growths;
#[cfg(test)]
mod misuse;
#[cfg(test)]
mod passing;
