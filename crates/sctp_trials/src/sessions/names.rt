//! What an end goes by in its associations.

/// A tag and a first TSN.
#[derive(Clone, Copy)]
pub struct Name {
    /// The tag.
    pub tag: u32,
    /// The first TSN.
    pub first: u32,
}

/// Adds a name, if its tag isn't the last one's. What there is no memory for is left out, so that the session goes
/// wrong.
pub fn add(names: &mut Vec<Name>, name: Name) {
    if let Some(last) = names.last()
        && last.tag == name.tag
    {
        return;
    }
    let _ = names.push(name);
}

/// The name that has this tag, and the one in the same place of the others.
pub fn matched(tag: u32, names: &[Name], others: &[Name]) -> Option<(Name, Name)> {
    for (name, other) in names.iter().zip(others) {
        if name.tag == tag {
            return Some((*name, *other));
        }
    }
    None
}
