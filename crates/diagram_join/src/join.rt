//! Lines of a diagram that are one instance.
use chart::Name;

/// Lines that are one instance.
#[derive(Clone, Copy, Debug)]
pub struct Join<'a> {
    /// The instance's name. It may be that of one of the lines.
    pub name: Name,
    /// The names of the lines.
    pub parts: &'a [Name],
}
