//! The rows of a table. A dollar sign stands between each two rows, and a bar between their parts. These functions alone cut a
//! table, since a proof takes time for each closure too.

/// How many rows a table has.
pub fn count(table: &[u8]) -> usize {
    table.split(|byte| *byte == b'$').count()
}

/// The row of this number; None where there are fewer.
pub fn row(table: &[u8], number: usize) -> Option<&[u8]> {
    table.split(|byte| *byte == b'$').nth(number)
}

/// The two parts of the row of this number; None where it has fewer.
pub fn pair(table: &[u8], number: usize) -> Option<(&[u8], &[u8])> {
    let mut parts = row(table, number)?.split(|byte| *byte == b'|');
    match (parts.next(), parts.next()) {
        (Some(one), Some(other)) => Some((one, other)),
        _ => None,
    }
}

/// The three parts of the row of this number; None where it has fewer.
pub fn triple(table: &[u8], number: usize) -> Option<(&[u8], &[u8], &[u8])> {
    let mut parts = row(table, number)?.split(|byte| *byte == b'|');
    match (parts.next(), parts.next(), parts.next()) {
        (Some(one), Some(other), Some(third)) => Some((one, other, third)),
        _ => None,
    }
}
