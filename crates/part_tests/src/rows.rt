//! Tables of texts: rows whose fields have bars between them.

/// The field of this number of a row; an empty one past the last.
pub fn field(row: &str, number: usize) -> &str {
    let mut before = number;
    for part in row.split('|') {
        if before == 0 {
            return part.trim();
        }
        before -= 1;
    }
    ""
}

/// The number at a place of a field, whose numbers have spaces between them. A field without such a number has one that
/// no test asks for.
pub fn number(field: &str, place: usize) -> i128 {
    let mut before = place;
    for word in field.split_whitespace() {
        if before == 0 {
            return word.parse::<i128>().unwrap_or(i128::MIN);
        }
        before -= 1;
    }
    i128::MIN
}
