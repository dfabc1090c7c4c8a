use txt_core::Text;

/// The fields of a row: the first three of them, of which those that lack are empty, all of them, and those
/// behind the first.
#[derive(Clone, Copy)]
pub struct Row<'a> {
    pub first: &'a Text,
    pub second: &'a Text,
    pub third: &'a Text,
    pub all: &'a [Text],
    pub behind: &'a [Text],
}

impl<'a> Row<'a> {
    /// A row of these fields; `none` stands for those that lack.
    pub fn new(fields: &'a [Text], none: &'a Text) -> Row<'a> {
        Row {
            first: fields.get(0).unwrap_or(none),
            second: fields.get(1).unwrap_or(none),
            third: fields.get(2).unwrap_or(none),
            all: fields,
            behind: fields.get(1..).unwrap_or(&[]),
        }
    }
}

/// What stands beside a name in a table, if it has that name.
pub fn find<T: Copy>(table: &[(&str, T)], name: &[u8]) -> Option<T> {
    for (known, found) in table {
        if known.as_bytes() == name {
            return Some(*found);
        }
    }
    None
}
