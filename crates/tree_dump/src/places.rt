// Places in a text by lines and columns, from 1 on.

/// A place in a text.
#[derive(Clone, Copy, Debug, PartialEq, Eq)]
pub struct Place {
    pub line: u32,
    /// In bytes.
    pub column: u32,
}

/// Where a byte of a text stands.
pub fn place_of(text: &[u8], offset: u32) -> Place {
    let mut line: u32 = 1;
    let mut column: u32 = 1;
    for (i, byte) in text.iter().enumerate() {
        if i as u64 >= u64::from(offset) {
            return Place { line, column };
        }
        if *byte == b'\n' {
            line = line.saturating_add(1);
            column = 1;
        } else {
            column = column.saturating_add(1);
        }
    }
    Place { line, column }
}

/// The place of each byte of a text, and of its end.
pub fn all_places(
    alloc: std::alloc::Global,
    text: &[u8],
) -> Result<Vec<Place>, std::alloc::AllocError> {
    let mut list = Vec::new(alloc);
    let mut line: u32 = 1;
    let mut column: u32 = 1;
    for byte in text {
        list.push(Place { line, column })?;
        if *byte == b'\n' {
            line = line.saturating_add(1);
            column = 1;
        } else {
            column = column.saturating_add(1);
        }
    }
    list.push(Place { line, column })?;
    Ok(list)
}
